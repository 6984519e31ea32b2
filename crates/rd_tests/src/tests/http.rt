/// A request for a path, without a key and a body.
macro_rules! get {
    ($path:literal) => {
        Came::Text(concat!("GET ", $path, " HTTP/1.1\r\n\r\n"))
    };
}

/// A request for the images, with these bytes after its first line.
macro_rules! with {
    ($rest:literal) => {
        Came::Text(concat!("GET /images HTTP/1.1\r\n", $rest))
    };
}

/// A reply in JSON: its status, the line that only this status has, and its body.
macro_rules! reply {
    ($status:literal, $body:literal) => {
        Wanted::Json($status, "", $body)
    };
    ($status:literal, $line:literal, $body:literal) => {
        Wanted::Json($status, $line, $body)
    };
}

/// The table of all files that are listed: how many bytes it has, and its lines after the names of its columns.
macro_rules! catalogue {
    ($length:literal, $lines:literal) => {
        Wanted::Texts(&[(
            concat!(
                "HTTP/1.1 200 OK\r\nContent-Type: text/csv\r\nContent-Length: ",
                $length,
                "\r\nConnection: close\r\n\r\naccession,deed,kind,slot,user,name,type,size,faults,rule,effect\n",
                $lines
            ),
            1,
        )])
    };
}

/// A table: how many bytes it has, and its lines.
macro_rules! csv {
    ($length:literal, $lines:literal) => {
        Wanted::Texts(&[(
            concat!(
                "HTTP/1.1 200 OK\r\nContent-Type: text/csv\r\nContent-Length: ",
                $length,
                "\r\nConnection: close\r\n\r\n",
                $lines
            ),
            1,
        )])
    };
}

/// How a run of visits went.
macro_rules! served {
    ($visits:literal, $read_faults:literal, $write_faults:literal, $ended:ident) => {
        Served {
            visits: $visits,
            read_faults: $read_faults,
            write_faults: $write_faults,
            ended: Ended::$ended,
        }
    };
}

mod cases;
mod doors;
mod faults;
mod limits;
mod long_reply;
mod refused;
mod runs;
mod tcp;
