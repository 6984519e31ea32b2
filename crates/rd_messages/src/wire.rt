//! What a visit reads and writes, and where visits come from.

ghost use Rattle.std.specs.Prelude.{◌≡◌, ◌↔◌, ℕ, List, Option, None, Bool, true, false, length, IsErr, IsOk, IfOk, IfSome, option_map};
ghost use Rattle.std.specs.Result.{result_ok};
ghost use Rattle.std.specs.Io.{ReadsAtMost, WritesAtMost};
ghost use Rattle.std.specs.Io.KnownBytes.{ReadConsumes, WriteAppends};
ghost use Rattle.rd_protocol.specs.BodyPieces.{pieces_left};
ghost use Rattle.rd_messages.specs.DoorVisits.{Admits, Coming, Leaves, NoneToCome, TakesNext, TellsToo, VisitsSoFar};
ghost use Rattle.rd_messages.specs.Sent.{PutsFront};

use rd_protocol::BodyPieces;

/// A read or a write of a connection failed, or a write took no byte.
#[derive(Clone, Copy, Debug, PartialEq, Eq)]
pub struct Broken;

/// A connection: what a visit reads and writes. A wire may show its bytes to contracts; that of a
/// socket does not.
pub trait Wire {
    /// All bytes that came, read or not, if the wire shows them.
    ghost came: { Self → Option (List ℕ) };

    /// The bytes to come, if the wire shows them.
    ghost incoming: { Self → Option (List ℕ) };

    /// The bytes written, if the wire shows them.
    ghost outgoing: { Self → Option (List ℕ) };

    /// Whether a read has failed.
    ghost read_failed: { Self → Bool };

    /// Whether a write has failed.
    ghost write_failed: { Self → Bool };

    /// How many bytes were put but not sent yet.
    ghost unsent: { Self → ℕ };

    /// Reads bytes into the front of a slice, and gives how many, at most its length. 0 for a
    /// slice that is not empty means the end.
    ///
    /// It fails with `Broken` when the connection fails; the caller makes no read after that.
    fn take(&mut self, into: &mut [u8]) -> Result<usize, Broken>
        requires { read_failed self.old ≡ false }
        ensures bound { ReadsAtMost result into.new }
        ensures bytes { ReadConsumes (incoming self.old) (incoming self.new) result into.new }
        ensures failed { IsErr result ↔ (read_failed self.new ≡ true) }
        ensures came { came self.new ≡ came self.old }
        ensures kept { outgoing self.new ≡ outgoing self.old }
        ensures writes_unchanged { write_failed self.new ≡ write_failed self.old };

    /// Writes bytes from the front of a slice, and gives how many: at most its length, and at
    /// least one if it is not empty.
    ///
    /// It fails with `Broken` when the connection fails or takes no byte; the caller makes no
    /// write after that.
    fn put(&mut self, bytes: &[u8]) -> Result<usize, Broken>
        requires { write_failed self.old ≡ false }
        ensures bound { WritesAtMost result bytes.now }
        ensures some { IfOk result (λ n. n ≡ 0 → length bytes.now ≡ 0) }
        ensures bytes { WriteAppends (outgoing self.old) (outgoing self.new) result bytes.now }
        ensures failed { IsErr result ↔ (write_failed self.new ≡ true) }
        ensures came { came self.new ≡ came self.old }
        ensures kept { incoming self.new ≡ incoming self.old }
        ensures reads_unchanged { read_failed self.new ≡ read_failed self.old };

    /// Writes pieces of a body from the front of those that are left, each of them whole and one after the other, and
    /// nothing else. How many these are is the wire's choice: a wire that holds bytes back takes pieces that it has
    /// room for, and another one takes none. It does not fail.
    #[tactic(auto, using(crate::proofs::SentBytes::none_put))]
    fn put_front_of(&mut self, pieces: &mut BodyPieces<'_>)
        requires { write_failed self.old ≡ false }
        ensures bytes { PutsFront (pieces_left pieces.old) (pieces_left pieces.new) (outgoing self.old) (outgoing self.new) }
        ensures working { write_failed self.new ≡ false }
        ensures came { came self.new ≡ came self.old }
        ensures kept { incoming self.new ≡ incoming self.old }
        ensures reads_unchanged { read_failed self.new ≡ read_failed self.old }
    {}

    /// Sends what was put and is held back. A wire that shows its bytes sends them as they are
    /// put, so that this does not fail there.
    ///
    /// It fails with `Broken` when the connection fails or takes no byte; the caller makes no
    /// write after that.
    fn flush(&mut self) -> Result<(), Broken>
        requires { write_failed self.old ≡ false }
        ensures sent { IfOk result (λ _. unsent self.new ≡ 0) }
        ensures tells { IfSome (outgoing self.old) (λ _. IsOk result) }
        ensures bytes { outgoing self.new ≡ outgoing self.old }
        ensures failed { IsErr result ↔ (write_failed self.new ≡ true) }
        ensures came { came self.new ≡ came self.old }
        ensures kept { incoming self.new ≡ incoming self.old }
        ensures reads_unchanged { read_failed self.new ≡ read_failed self.old };
}

/// No more visits come.
#[derive(Clone, Copy, Debug, PartialEq, Eq)]
pub struct Shut;

/// Where visits come from, one after the other. A door may show contracts the visits so far, and
/// those to come.
pub trait Door {
    /// The connection of a visit.
    type Conn: Wire;

    /// The visits that are over and the one under way, if the door shows them.
    ghost so_far: { Self → Option VisitsSoFar };

    /// The visits to come, in order, if the door shows them.
    ghost coming: { Self → Option (List Coming) } = { λ _. None };

    /// Whether the door has shut.
    ghost has_shut: { Self → Bool };

    /// Admits the next visit: its moment, in seconds since 1970-01-01T00:00:00 UTC, and its
    /// connection, on which nothing has failed yet. It may wait for a visitor. A door that shows
    /// its visits admits none while another is under way.
    ///
    /// It fails with `Shut` when no more visits come, and always from then on.
    fn admit(&mut self) -> Result<(i64, Self::Conn), Shut>
        ensures visits { Admits (so_far self.old) (so_far self.new) (option_map (λ visit. visit.0) (result_ok result)) }
        ensures whole { IfOk result (λ visit. Self.Conn.incoming visit.1 ≡ Self.Conn.came visit.1) }
        ensures tells { IfOk result (λ visit. TellsToo (so_far self.old) (Self.Conn.came visit.1) (Self.Conn.outgoing visit.1)) }
        ensures ready { IfOk result (λ visit. Self.Conn.read_failed visit.1 ≡ false) }
        ensures write_ready { IfOk result (λ visit. Self.Conn.write_failed visit.1 ≡ false) }
        ensures unsent { IfOk result (λ visit. Self.Conn.unsent visit.1 ≡ 0) }
        ensures next { IfOk result (λ visit. TakesNext (coming self.old) (coming self.new) visit.0 (Self.Conn.came visit.1)) }
        ensures kept { IsErr result → coming self.new ≡ coming self.old }
        ensures shut { IsErr result ↔ (has_shut self.new ≡ true) }
        ensures stays { has_shut self.old ≡ true → IsErr result }
        ensures last { has_shut self.old ≡ false → IsErr result → NoneToCome (so_far self.old) (coming self.old) };

    /// Ends the visit under way, which used this connection. Everything that was put has been
    /// sent, unless a read or a write failed.
    fn leave(&mut self, conn: Self::Conn)
        requires { Self.Conn.read_failed conn ≡ false → Self.Conn.write_failed conn ≡ false → Self.Conn.unsent conn ≡ 0 }
        ensures visits { Leaves (so_far self.old) (so_far self.new) (Self.Conn.came conn) (Self.Conn.outgoing conn)
            (Self.Conn.read_failed conn) (Self.Conn.write_failed conn) }
        ensures kept { coming self.new ≡ coming self.old }
        ensures shut { has_shut self.new ≡ has_shut self.old };
}
