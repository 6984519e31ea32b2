ghost use Rattle.std.specs.Prelude.{◌↔◌, IsTrue};
ghost use Rattle.rd_holdings.specs.Lawful.{IsDonor};

/// Whether a text may be a donor's name: it has 1 to 1,000 bytes, none below 20 hex.
pub fn is_donor(text: &str) -> bool
    ensures { IsTrue result ↔ IsDonor text.now }
{
    let bytes = text.as_bytes();
    !bytes.is_empty() && bytes.len() <= 1_000 && bytes.iter().all(|byte| *byte >= 32)
}
