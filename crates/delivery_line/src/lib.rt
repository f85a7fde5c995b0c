// A delivery as a line of text: a command under a number. It knows no loop.
#![tactic(auto)]

ghost use Rattle.std.specs.Prelude.{◌≡◌};
ghost use Rattle.delivery_line.specs.Line.{word_in, rest_in, field_in, same_word, command_of, delivery_of};

use command::Command;
use word::end::end_at;
use word::number::{read_signed, read_unsigned};

// What a line asks: a command under a number.
#[derive(Clone, Copy, Debug, PartialEq, Eq)]
pub struct Delivery {
    pub number: u32,
    pub command: Command,
}

// What stands before the first space, and what stands after it.
fn cut(text: &[u8]) -> (&[u8], &[u8])
    ensures front { result.0.now ≡ word_in text.now }
    ensures back { result.1.now ≡ rest_in text.now }
{
    let end = end_at(text, b' ');
    let length = text.len();
    (&text[..end], &text[length.min(end + 1)..])
}

// What stands after a word's key, and nothing where the word has another.
fn field<'a, 'b>(key: &'a [u8], word: &'b [u8]) -> &'b [u8]
    ensures { result.now ≡ field_in key.now word.now }
{
    word.strip_prefix(key).unwrap_or(&[])
}

fn same_word(key: &[u8], word: &[u8]) -> bool
    ensures { result ≡ same_word key.now word.now }
{
    word == key
}

// "unused values 0". Tests and no match: a match on byte strings comes to a goal for each byte of each.
fn command(word: &[u8], value: i32, second: i32) -> Option<Command>
    ensures { result ≡ command_of word.now value second }
{
    if same_word(b"target", word) {
        return Some(Command::Target(value, second));
    }
    if second != 0 {
        return None;
    }
    if same_word(b"sample", word) {
        return Some(Command::Sample(value));
    }
    if same_word(b"put", word) {
        return Some(Command::Put(value));
    }
    if same_word(b"set", word) {
        return Some(Command::Set(value));
    }
    if value != 0 {
        return None;
    }
    if same_word(b"hold", word) {
        return Some(Command::Hold);
    }
    if same_word(b"automatic", word) {
        return Some(Command::Automatic);
    }
    None
}

// `number=N command=WORD value=V second=S`, "in that order, one space between"
pub fn parse(line: &[u8]) -> Option<Delivery>
    ensures { result ≡ delivery_of line.now }
{
    let (first, rest) = cut(line);
    let (word, last) = cut(rest);
    let (third, fourth) = cut(last);
    let number = read_unsigned(field(b"number=", first))?;
    let value = read_signed(field(b"value=", third))?;
    let second = read_signed(field(b"second=", fourth))?;
    let command = command(field(b"command=", word), value, second)?;
    Some(Delivery { number, command })
}
