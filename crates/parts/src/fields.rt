// A line is read one field and the rest of the line at a time.

ghost use Rattle.std.specs.Prelude.{◌≡◌};
ghost use Rattle.parts.specs.Parts.{front, after, seen, NoComma, joined};

// The part of a line up to its first comma, and the bytes after that comma, if there is one.
pub fn field(line: &[u8]) -> (&[u8], Option<&[u8]>)
    ensures first { result.0.now ≡ front line.now }
    ensures second { seen result.1 ≡ after line.now }
    ensures whole { joined result.0.now (seen result.1) ≡ line.now }
    ensures plain { NoComma result.0.now }
{
    match line.iter().position(|b| *b == b',') {
        Some(i) => (&line[..i], Some(&line[i + 1..])),
        None => (line, None),
    }
}
