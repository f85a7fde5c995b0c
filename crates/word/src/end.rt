// Where a word of a text ends.
ghost use Rattle.std.specs.Prelude.{◌≡◌};
ghost use Rattle.word.specs.End.{end_at};

// The place of the first such byte, or the length where there is none, as the definition has it.
pub fn end_at(rest: &[u8], byte: u8) -> usize
    ensures { result ≡ end_at byte rest.now }
{
    rest.iter().position(|b| *b == byte).unwrap_or(rest.len())
}
