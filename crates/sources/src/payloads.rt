// The payloads of a row, in bytes.
ghost use Rattle.std.specs.Prelude.{◌≡◌};
ghost use Rattle.sources.specs.Answers.{some_above};

// Whether some payload has more than eight bytes.
pub(crate) fn oversized(payloads: &[u8]) -> bool
    ensures { result ≡ some_above 8 payloads.now }
{
    payloads.iter().any(|payload| *payload > 8)
}
