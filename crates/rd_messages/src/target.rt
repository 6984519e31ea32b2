//! The path of a target.

ghost use Rattle.std.specs.Prelude.{◌≡◌, ◌==◌, true, false, IfSome, IfNone, position};
ghost use Rattle.std.specs.Char.{is_ascii};
ghost use Rattle.std.specs.List.{list_all};
ghost use Rattle.rd_messages.specs.Routes.{path_of};

/// The place of the first question mark in a target; `None` if it has none.
fn query_start(target: &[u8]) -> Option<usize>
    ensures { result ≡ position (λ byte. byte == 63) target.now }
{
    target.iter().position(|byte| *byte == b'?')
}

/// What comes before the first question mark of a target, or all of it.
fn before_query(target: &[u8]) -> &[u8]
    ensures { result.now ≡ path_of target.now }
{
    match query_start(target) {
        Some(end) => &target[..end],
        None => target,
    }
}

/// Whether each byte is ASCII.
fn all_ascii(bytes: &[u8]) -> bool
    ensures { result ≡ list_all is_ascii bytes.now }
{
    bytes.iter().all(|byte| byte.is_ascii())
}

/// The path of a target; `None` if it has a byte that is not ASCII.
#[tactic(auto, using(crate::proofs::RouteLemmas::text_from_test))]
pub(crate) fn ascii_path(target: &[u8]) -> Option<&str>
    ensures path { IfSome result (λ path. path.now ≡ path_of target.now) }
    ensures ascii { IfSome result (λ path. list_all is_ascii path.now ≡ true) }
    ensures other { IfNone result (list_all is_ascii (path_of target.now) ≡ false) }
{
    let path = before_query(target);
    if !all_ascii(path) {
        return None;
    }
    match str::from_utf8(path) {
        Ok(text) => Some(text),
        Err(_) => unreachable!(),
    }
}
