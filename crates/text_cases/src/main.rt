// Runs the reader, the writer and one decimal on cases whose answers the papers fix. Each case writes a line: its name, the code,
// then the reader's line or the writer's length. The file stdout has what the papers say.
#![tactic(auto)]

ghost use Rattle.std.specs.Prelude.{◌≤◌, length};

use refusal::{Refusal, code};
use settings::Settings;
use std::io;
use std::io::Print;
use text::reader::{Reading, read_settings};
use values::value;
use word::buffer::put;
use word::decimal::{Decimal, read_decimal};
use word::end::end_at;
use word::number::read_signed;
use writer::write_settings;

// ---- texts that are put together

// The text of settings C, with every line: mean 1, jump 2,000,000, and sets 4 to 15 equal to set 0. Without mean and jump its
// first 26 lines are "Settings C, whole" in the first paper.
const C: &[u8] = b"action=0\nlo=0\nhi=1000\nout=100\nsp=500\nrate=50\n\
      mean=1\njump=2000000\n\
      kp0=65536\nki0=16384\nkd0=0\nalpha0=65536\nkt0=0\n\
      kp1=131072\nki1=16384\nkd1=65536\nalpha1=32768\nkt1=0\n\
      kp2=65536\nki2=16384\nkd2=0\nalpha2=65536\nkt2=32768\n\
      kp3=32768\nki3=0\nkd3=0\nalpha3=65536\nkt3=0\n\
      kp4=65536\nki4=16384\nkd4=0\nalpha4=65536\nkt4=0\n\
      kp5=65536\nki5=16384\nkd5=0\nalpha5=65536\nkt5=0\n\
      kp6=65536\nki6=16384\nkd6=0\nalpha6=65536\nkt6=0\n\
      kp7=65536\nki7=16384\nkd7=0\nalpha7=65536\nkt7=0\n\
      kp8=65536\nki8=16384\nkd8=0\nalpha8=65536\nkt8=0\n\
      kp9=65536\nki9=16384\nkd9=0\nalpha9=65536\nkt9=0\n\
      kp10=65536\nki10=16384\nkd10=0\nalpha10=65536\nkt10=0\n\
      kp11=65536\nki11=16384\nkd11=0\nalpha11=65536\nkt11=0\n\
      kp12=65536\nki12=16384\nkd12=0\nalpha12=65536\nkt12=0\n\
      kp13=65536\nki13=16384\nkd13=0\nalpha13=65536\nkt13=0\n\
      kp14=65536\nki14=16384\nkd14=0\nalpha14=65536\nkt14=0\n\
      kp15=65536\nki15=16384\nkd15=0\nalpha15=65536\nkt15=0\n";

// The longest text.
const LONGEST: &[u8] =
    b"action=1\nlo=-1000000\nhi=1000000\nout=-1000000\nsp=-1000000\nrate=2000000\n\
      mean=128\njump=2000000\n\
      kp0=4194304\nki0=4194304\nkd0=4194304\nalpha0=65536\nkt0=65536\n\
      kp1=4194304\nki1=4194304\nkd1=4194304\nalpha1=65536\nkt1=65536\n\
      kp2=4194304\nki2=4194304\nkd2=4194304\nalpha2=65536\nkt2=65536\n\
      kp3=4194304\nki3=4194304\nkd3=4194304\nalpha3=65536\nkt3=65536\n\
      kp4=4194304\nki4=4194304\nkd4=4194304\nalpha4=65536\nkt4=65536\n\
      kp5=4194304\nki5=4194304\nkd5=4194304\nalpha5=65536\nkt5=65536\n\
      kp6=4194304\nki6=4194304\nkd6=4194304\nalpha6=65536\nkt6=65536\n\
      kp7=4194304\nki7=4194304\nkd7=4194304\nalpha7=65536\nkt7=65536\n\
      kp8=4194304\nki8=4194304\nkd8=4194304\nalpha8=65536\nkt8=65536\n\
      kp9=4194304\nki9=4194304\nkd9=4194304\nalpha9=65536\nkt9=65536\n\
      kp10=4194304\nki10=4194304\nkd10=4194304\nalpha10=65536\nkt10=65536\n\
      kp11=4194304\nki11=4194304\nkd11=4194304\nalpha11=65536\nkt11=65536\n\
      kp12=4194304\nki12=4194304\nkd12=4194304\nalpha12=65536\nkt12=65536\n\
      kp13=4194304\nki13=4194304\nkd13=4194304\nalpha13=65536\nkt13=65536\n\
      kp14=4194304\nki14=4194304\nkd14=4194304\nalpha14=65536\nkt14=65536\n\
      kp15=4194304\nki15=4194304\nkd15=4194304\nalpha15=65536\nkt15=65536\n";

// Room for any text of these cases.
const ROOM: usize = 1100;

// "A text may have neither line, mean alone, or both."
#[derive(Clone, Copy)]
enum Head {
    Neither,
    Mean,
    Both,
}

// The gain sets that a text has lines of: all, or the first four.
#[derive(Clone, Copy)]
enum Sets {
    All,
    Four,
}

// Which lines a text has.
#[derive(Clone, Copy)]
struct Form {
    head: Head,
    sets: Sets,
}

// What a text is made into at a line: one with other bytes in the line's place, or one that ends with them there.
#[derive(Clone, Copy)]
enum Edit {
    Change,
    Cut,
}

// A text that is put together.
#[derive(Clone, Copy)]
struct Made {
    bytes: [u8; ROOM],
    len: usize,
    ghost fits: { len ≤ 1100 },
}

impl Made {
    fn of(text: &[u8]) -> Made {
        let empty = Made {
            bytes: [0; ROOM],
            len: 0,
        };
        empty.with(text)
    }

    // As much of more as there is room for, after what is there.
    fn with(mut self, more: &[u8]) -> Made {
        let at = self.len;
        put(&mut self.bytes, at, more);
        self.len = at + more.len().min(ROOM - at);
        self
    }

    fn text(&self) -> &[u8] {
        &self.bytes[..self.len]
    }
}

// What stands from line n on, counted from 1.
fn from_line(text: &[u8], n: usize) -> &[u8]
    ensures { length result.now ≤ length text.now }
{
    let mut rest = text;
    for _line in 1..n {
        let end = end_at(rest, b'\n');
        if rest.len() <= end {
            return &[];
        }
        rest = &rest[end + 1..];
    }
    rest
}

// What stands before line n.
fn before_line(text: &[u8], n: usize) -> &[u8] {
    let rest = from_line(text, n);
    &text[..text.len() - rest.len()]
}

fn edited(text: &[u8], edit: Edit, n: usize, new: &[u8]) -> Made {
    let made = Made::of(before_line(text, n)).with(new);
    match edit {
        Edit::Cut => made,
        Edit::Change => made.with(from_line(from_line(text, n), 2)),
    }
}

impl Head {
    // The line of kp0.
    fn first_gain(self) -> usize {
        match self {
            Head::Neither => 7,
            Head::Mean => 8,
            Head::Both => 9,
        }
    }
}

impl Form {
    fn full(head: Head) -> Form {
        Form {
            head,
            sets: Sets::All,
        }
    }

    fn short(head: Head) -> Form {
        Form {
            head,
            sets: Sets::Four,
        }
    }

    // Of a text with every line, those of this form.
    fn of(self, text: &[u8]) -> Made {
        let made = Made::of(before_line(text, self.head.first_gain()));
        let gains = from_line(text, Head::Both.first_gain());
        match self.sets {
            Sets::All => made.with(gains),
            Sets::Four => made.with(before_line(gains, 21)),
        }
    }

    // The longest text of the form, with hi = lo.
    fn level(self) -> Made {
        edited(self.of(LONGEST).text(), Edit::Change, 3, b"hi=-1000000\n")
    }
}

// ---- the reader

fn say(rt: &HostRuntime, name: &str, code: u8, n: usize) -> io::Result<()> {
    println!(rt; "{name} {code} {n}")
}

fn read_text(rt: &HostRuntime, name: &str, text: &[u8]) -> io::Result<()> {
    let Reading { outcome, line, .. } = read_settings(text);
    say(rt, name, code(outcome), line)
}

// Reads, for each case, settings C in a form, edited at the case's line with the case's bytes.
fn cases(
    rt: &HostRuntime,
    form: Form,
    edit: Edit,
    list: &[(&str, usize, &[u8])],
) -> io::Result<()> {
    let text = form.of(C);
    for case in list {
        let (name, line, new) = *case;
        read_text(rt, name, edited(text.text(), edit, line, new).text())?;
    }
    Ok(())
}

// Settings C in a form, with hi = lo and a byte after the last line.
fn level_and_a_byte(rt: &HostRuntime, name: &str, form: Form) -> io::Result<()> {
    let level = edited(form.of(C).text(), Edit::Change, 3, b"hi=0\n");
    read_text(rt, name, level.with(b"x").text())
}

// "Text that stops early is 14 at the line where it stops."
fn early(rt: &HostRuntime) -> io::Result<()> {
    cases(
        rt,
        Form::short(Head::Neither),
        Edit::Cut,
        &[
            ("empty", 1, b""),
            ("one-line-feed", 1, b"\n"),
            ("one-byte", 1, b"a"),
            ("stops-after-line-5", 6, b""),
            ("stops-after-line-1", 2, b""),
            ("stops-after-line-25", 26, b""),
            ("stops-in-a-key", 6, b"rat"),
            ("stops-after-a-key", 6, b"rate"),
            ("stops-after-an-equals-sign", 6, b"rate="),
            ("stops-after-a-value", 6, b"rate=50"),
        ],
    )?;
    cases(
        rt,
        Form::short(Head::Neither),
        Edit::Change,
        &[
            ("no-last-line-feed", 26, b"kt3=0"),
            ("no-last-line-feed-and-too-large", 26, b"kt3=9999999"),
        ],
    )
}

// Lines of wrong form: 14.
fn forms(rt: &HostRuntime) -> io::Result<()> {
    cases(
        rt,
        Form::short(Head::Neither),
        Edit::Change,
        &[
            ("crlf", 1, b"action=0\r\n"),
            ("crlf-on-the-last-line", 26, b"kt3=0\r\n"),
            ("carriage-return-for-line-feed", 3, b"hi=1000\r"),
            ("space-before-the-key", 3, b" hi=1000\n"),
            ("space-after-the-key", 3, b"hi =1000\n"),
            ("space-before-the-value", 3, b"hi= 1000\n"),
            ("space-after-the-value", 3, b"hi=1000 \n"),
            ("tab", 3, b"hi=\t1000\n"),
            ("empty-line", 3, b"\nhi=1000\n"),
            ("no-equals-sign", 3, b"hi1000\n"),
            ("two-equals-signs", 3, b"hi==1000\n"),
            ("capital-key", 3, b"HI=1000\n"),
            ("longer-key", 3, b"hix=1000\n"),
            ("shorter-key", 3, b"h=1000\n"),
            ("no-key", 3, b"=1000\n"),
            ("zero-byte", 3, b"hi=1000\0\n"),
            ("byte-255-in-a-value", 3, b"hi=1\xff00\n"),
            ("byte-176-in-a-value", 3, b"hi=1\xb000\n"),
            ("byte-232-in-a-key", 3, b"\xe8i=1000\n"),
            ("byte-order-mark", 1, b"\xef\xbb\xbfaction=0\n"),
        ],
    )
}

// Values of wrong form: 14.
fn values(rt: &HostRuntime) -> io::Result<()> {
    cases(
        rt,
        Form::short(Head::Neither),
        Edit::Change,
        &[
            ("no-value", 3, b"hi=\n"),
            ("minus-alone", 3, b"hi=-\n"),
            ("two-minus-signs", 3, b"hi=--1\n"),
            ("minus-at-the-end", 3, b"hi=1-\n"),
            ("plus-sign", 3, b"hi=+1000\n"),
            ("minus-zero", 2, b"lo=-0\n"),
            ("two-zeros", 2, b"lo=00\n"),
            ("leading-zero", 3, b"hi=01000\n"),
            ("leading-zero-after-a-minus", 2, b"lo=-01\n"),
            ("seven-zeros", 2, b"lo=0000000\n"),
            ("eight-digits", 3, b"hi=10000000\n"),
            ("eight-digits-after-a-minus", 2, b"lo=-10000000\n"),
            ("twenty-digits", 3, b"hi=18446744073709552616\n"),
            ("a-letter", 3, b"hi=1e3\n"),
            ("a-point", 3, b"hi=1000.0\n"),
            ("a-separator", 3, b"hi=1_000\n"),
            ("byte-before-0", 3, b"hi=1/\n"),
            ("byte-after-9", 3, b"hi=1:\n"),
        ],
    )
}

// Values outside their ranges: 15; and at the ends of their ranges: 0.
fn ranges(rt: &HostRuntime) -> io::Result<()> {
    cases(
        rt,
        Form::short(Head::Neither),
        Edit::Change,
        &[
            ("seven-digits-too-large", 3, b"hi=9999999\n"),
            ("seven-digits-too-small", 2, b"lo=-9999999\n"),
            ("hi-1000000", 3, b"hi=1000000\n"),
            ("hi-1000001", 3, b"hi=1000001\n"),
            ("lo-minus-1000000", 2, b"lo=-1000000\n"),
            ("lo-minus-1000001", 2, b"lo=-1000001\n"),
            ("action-1", 1, b"action=1\n"),
            ("action-2", 1, b"action=2\n"),
            ("action-minus-1", 1, b"action=-1\n"),
            ("out-1000001", 4, b"out=1000001\n"),
            ("sp-minus-1000001", 5, b"sp=-1000001\n"),
            ("rate-0", 6, b"rate=0\n"),
            ("rate-1", 6, b"rate=1\n"),
            ("rate-2000000", 6, b"rate=2000000\n"),
            ("rate-2000001", 6, b"rate=2000001\n"),
            ("kp0-4194304", 7, b"kp0=4194304\n"),
            ("kp0-4194305", 7, b"kp0=4194305\n"),
            ("ki1-minus-1", 13, b"ki1=-1\n"),
            ("alpha2-0", 20, b"alpha2=0\n"),
            ("alpha2-1", 20, b"alpha2=1\n"),
            ("alpha2-65537", 20, b"alpha2=65537\n"),
            ("kt3-65536", 26, b"kt3=65536\n"),
            ("kt3-65537", 26, b"kt3=65537\n"),
        ],
    )
}

// The order of the tests: lines in order, 14 before 15 in each, then 17, then 16.
fn orders(rt: &HostRuntime) -> io::Result<()> {
    cases(
        rt,
        Form::short(Head::Neither),
        Edit::Cut,
        &[
            ("15-on-line-2-14-on-line-3", 2, b"lo=9999999\nhi=\n"),
            ("14-on-line-2-15-on-line-3", 2, b"lo=\nhi=9999999\n"),
            ("keys-in-another-order", 2, b"hi=1000\nlo=0\nout=100\n"),
        ],
    )?;
    cases(
        rt,
        Form::short(Head::Neither),
        Edit::Change,
        &[
            ("too-large-and-a-space", 3, b"hi=9999999 \n"),
            ("a-line-twice", 7, b"kp0=65536\nkp0=65536\n"),
            ("a-line-left-out", 7, b""),
            ("lo-is-hi", 3, b"hi=0\n"),
            ("lo-above-hi", 3, b"hi=-1\n"),
            ("out-below-lo", 4, b"out=-1\n"),
            ("out-is-lo", 4, b"out=0\n"),
            ("out-is-hi", 4, b"out=1000\n"),
            ("out-above-hi", 4, b"out=1001\n"),
            ("a-byte-after-line-26", 27, b"x"),
            ("a-line-feed-after-line-26", 27, b"\n"),
            ("a-space-after-line-26", 27, b" "),
            ("a-key-after-line-26", 27, b"kp4"),
            ("no-line-feed-after-line-27", 27, b"kp4=0"),
            ("line-27-too-large", 27, b"kp4=4194305\n"),
            ("a-good-line-27", 27, b"kp4=0\n"),
            ("line-26-twice", 27, b"kt3=0\n"),
        ],
    )?;
    level_and_a_byte(rt, "lo-is-hi-and-a-byte", Form::short(Head::Neither))
}

// "86 lines": each line after 26 is tested as those before it are.
fn long_forms(rt: &HostRuntime) -> io::Result<()> {
    cases(
        rt,
        Form::full(Head::Neither),
        Edit::Cut,
        &[
            ("86-lines", 87, b""),
            ("stops-after-line-26", 27, b""),
            ("stops-after-line-27", 28, b""),
            ("stops-after-line-31", 32, b""),
            ("stops-after-line-85", 86, b""),
            ("stops-in-line-57", 57, b"kp10=6"),
            ("stops-in-line-86", 86, b"kt15=0"),
        ],
    )?;
    cases(
        rt,
        Form::full(Head::Neither),
        Edit::Change,
        &[
            ("line-27-left-out", 27, b""),
            ("key-of-set-0-on-line-27", 27, b"kp0=65536\n"),
            ("a-leading-zero-in-a-set", 27, b"kp04=65536\n"),
            ("key-of-set-1-on-line-57", 57, b"kp1=65536\n"),
            ("key-of-set-16-on-line-82", 82, b"kp16=65536\n"),
            ("kp15-4194304", 82, b"kp15=4194304\n"),
            ("kp15-4194305", 82, b"kp15=4194305\n"),
            ("alpha10-0", 60, b"alpha10=0\n"),
            ("kt15-65537", 86, b"kt15=65537\n"),
            ("lo-is-hi-in-86-lines", 3, b"hi=0\n"),
            ("a-byte-after-the-last-line", 86, b"kt15=0\nx"),
            ("a-line-feed-after-the-last-line", 86, b"kt15=0\n\n"),
            ("a-line-after-the-last-line", 86, b"kt15=0\nkp16=0\n"),
        ],
    )
}

// The line mean, which "follows rate".
fn means(rt: &HostRuntime) -> io::Result<()> {
    cases(
        rt,
        Form::short(Head::Mean),
        Edit::Change,
        &[
            ("mean-1", 7, b"mean=1\n"),
            ("mean-128", 7, b"mean=128\n"),
            ("mean-0", 7, b"mean=0\n"),
            ("mean-129", 7, b"mean=129\n"),
            ("mean-minus-1", 7, b"mean=-1\n"),
            ("no-mean-value", 7, b"mean=\n"),
            ("mean-leading-zero", 7, b"mean=01\n"),
            ("mean-0-and-a-wrong-line", 7, b"mean=0\nx\n"),
            ("mean-twice", 7, b"mean=1\nmean=1\n"),
            ("kp-on-line-7", 7, b"kp=1\n"),
            ("kp1-on-line-7", 7, b"kp1=1\n"),
            ("mean-left-out", 7, b""),
            ("key-of-set-1-after-mean", 8, b"kp1=65536\n"),
        ],
    )?;
    cases(
        rt,
        Form::short(Head::Neither),
        Edit::Change,
        &[
            ("kp00-on-line-7", 7, b"kp00=1\n"),
            ("kp0-alone-on-line-7", 7, b"kp0\n"),
            ("mean-before-rate", 6, b"mean=1\nrate=50\n"),
            ("mean-after-kp0", 7, b"kp0=65536\nmean=1\n"),
            ("mean-after-line-26", 27, b"mean=1\n"),
        ],
    )
}

// "with the line request 5's 26 and 27 are one more"
fn mean_forms(rt: &HostRuntime) -> io::Result<()> {
    cases(
        rt,
        Form::full(Head::Mean),
        Edit::Cut,
        &[
            ("87-lines", 88, b""),
            ("stops-after-line-6", 7, b""),
            ("stops-in-mean", 7, b"mean=1"),
            ("stops-after-mean", 8, b""),
            ("stops-after-line-26-with-mean", 27, b""),
            ("stops-after-line-27-with-mean", 28, b""),
            ("stops-after-line-28-with-mean", 29, b""),
            ("stops-after-line-86-with-mean", 87, b""),
        ],
    )?;
    cases(
        rt,
        Form::short(Head::Mean),
        Edit::Change,
        &[
            ("a-byte-after-line-27", 28, b"x"),
            ("line-28-too-large", 28, b"kp4=4194305\n"),
            ("a-good-line-28", 28, b"kp4=0\n"),
            ("mean-again-after-line-27", 28, b"mean=1\n"),
            ("lo-is-hi-in-27-lines", 3, b"hi=0\n"),
        ],
    )?;
    level_and_a_byte(
        rt,
        "lo-is-hi-in-27-lines-and-a-byte",
        Form::short(Head::Mean),
    )?;
    cases(
        rt,
        Form::full(Head::Mean),
        Edit::Change,
        &[
            ("kt15-65537-with-mean", 87, b"kt15=65537\n"),
            ("a-byte-after-line-87", 87, b"kt15=0\nx"),
        ],
    )
}

// The line jump, "a settings line after mean".
fn jumps(rt: &HostRuntime) -> io::Result<()> {
    cases(
        rt,
        Form::short(Head::Both),
        Edit::Change,
        &[
            ("jump-1", 8, b"jump=1\n"),
            ("jump-2000000", 8, b"jump=2000000\n"),
            ("jump-0", 8, b"jump=0\n"),
            ("jump-2000001", 8, b"jump=2000001\n"),
            ("jump-minus-1", 8, b"jump=-1\n"),
            ("no-jump-value", 8, b"jump=\n"),
            ("jump-leading-zero", 8, b"jump=01\n"),
            ("15-in-mean-14-in-jump", 7, b"mean=0\njump=\n"),
            ("14-in-mean-15-in-jump", 7, b"mean=\njump=0\n"),
            ("jump-0-and-a-wrong-line", 8, b"jump=0\nx\n"),
            ("jump-twice", 8, b"jump=5\njump=5\n"),
            ("jump-before-rate", 6, b"jump=5\nrate=50\n"),
            ("jump-left-out", 8, b""),
            ("jump-alone", 7, b""),
            ("key-of-set-1-after-jump", 9, b"kp1=65536\n"),
        ],
    )?;
    cases(
        rt,
        Form::short(Head::Mean),
        Edit::Change,
        &[
            ("jump-before-mean", 7, b"jump=5\nmean=1\n"),
            ("kp00-on-line-8", 8, b"kp00=1\n"),
            ("jump-after-kp0", 8, b"kp0=65536\njump=5\n"),
        ],
    )
}

// With mean and jump request 5's 26 and 27 are two more.
fn jump_forms(rt: &HostRuntime) -> io::Result<()> {
    cases(
        rt,
        Form::full(Head::Both),
        Edit::Cut,
        &[
            ("88-lines", 89, b""),
            ("stops-in-jump", 8, b"jump=5"),
            ("stops-after-jump", 9, b""),
            ("stops-after-line-27-with-jump", 28, b""),
            ("stops-after-line-28-with-jump", 29, b""),
            ("stops-after-line-29-with-jump", 30, b""),
            ("stops-after-line-87-with-jump", 88, b""),
        ],
    )?;
    cases(
        rt,
        Form::short(Head::Both),
        Edit::Change,
        &[
            ("a-byte-after-line-28", 29, b"x"),
            ("line-29-too-large", 29, b"kp4=4194305\n"),
            ("a-good-line-29", 29, b"kp4=0\n"),
            ("jump-again-after-line-28", 29, b"jump=5\n"),
            ("lo-is-hi-in-28-lines", 3, b"hi=0\n"),
        ],
    )?;
    cases(
        rt,
        Form::full(Head::Both),
        Edit::Change,
        &[
            ("kt15-65537-with-jump", 88, b"kt15=65537\n"),
            ("a-byte-after-line-88", 88, b"kt15=0\nx"),
        ],
    )
}

// Reads a text that is called by its length.
fn read_long(rt: &HostRuntime, made: Made) -> io::Result<()> {
    let n = made.text().len();
    print!(rt; "{n}")?;
    read_text(rt, "-bytes", made.text())
}

// The longest text of a form is accepted; a byte more has lo = hi; and yet a byte more comes before that.
fn lengths(rt: &HostRuntime) -> io::Result<()> {
    read_text(rt, "4096-bytes-and-no-line-feed", &[b'a'; 4096])?;
    let forms = [
        Form::full(Head::Both),
        Form::full(Head::Mean),
        Form::full(Head::Neither),
        Form::short(Head::Both),
        Form::short(Head::Mean),
        Form::short(Head::Neither),
    ];
    for form in forms {
        read_long(rt, form.of(LONGEST))?;
        read_long(rt, form.level())?;
        read_long(rt, form.level().with(b"x"))?;
    }
    Ok(())
}

// ---- the writer

// The code of what was written, and the length, 0 beside a refusal.
fn told(written: Result<usize, Refusal>) -> (u8, usize) {
    match written {
        Ok(len) => (0, len),
        Err(refusal) => (u8::from(refusal), 0),
    }
}

// Writes into the first bytes of ROOM that are all x, and says how many at the end stayed so. The line feed that ends a text
// is no x, so this counts the bytes after it.
fn write(rt: &HostRuntime, name: &str, s: Settings, room: usize) -> io::Result<()> {
    let mut buffer = [b'x'; ROOM];
    let (code, len) = told(write_settings(s, &mut buffer[..room.min(ROOM)]));
    let kept = buffer.iter().rev().take_while(|b| **b == b'x').count();
    say(rt, name, code, len)?;
    say(rt, "  bytes-kept", code, kept)
}

fn settings_of(made: Made) -> Settings {
    read_settings(made.text()).settings
}

// 18 for a buffer shorter than the text; else the length, and every byte after the text stays. Mean and jump are always written.
fn rooms(rt: &HostRuntime) -> io::Result<()> {
    let s = settings_of(Form::short(Head::Neither).of(C));
    let l = settings_of(Form::full(Head::Both).of(LONGEST));
    write(rt, "c-in-1100-bytes", s, ROOM)?;
    write(rt, "c-in-820-bytes", s, 820)?;
    write(rt, "c-in-819-bytes", s, 819)?;
    write(rt, "c-in-230-bytes", s, 230)?;
    write(rt, "c-in-0-bytes", s, 0)?;
    write(rt, "longest-in-1100-bytes", l, ROOM)?;
    write(rt, "longest-in-1066-bytes", l, 1066)?;
    write(rt, "longest-in-1065-bytes", l, 1065)
}

// 11, then 16, then 18.
fn wrongs(rt: &HostRuntime) -> io::Result<()> {
    let s = settings_of(Form::full(Head::Both).of(C));
    let high = Settings { hi: 1000001, ..s };
    let low = Settings {
        lo: -2147483648,
        ..s
    };
    let equal = Settings { hi: 0, ..s };
    let out = Settings { out: 1001, ..s };
    let slow = Settings { rate: 0, ..equal };
    let none = Settings { mean: 0, ..equal };
    let wide = Settings { mean: 129, ..s };
    let near = Settings { jump: 0, ..equal };
    let far = Settings { jump: 2000001, ..s };
    write(rt, "write-hi-1000001", high, ROOM)?;
    write(rt, "write-lo-least-of-32-bits", low, ROOM)?;
    write(rt, "write-lo-is-hi", equal, ROOM)?;
    write(rt, "write-out-above-hi", out, ROOM)?;
    write(rt, "write-rate-0-and-lo-is-hi", slow, ROOM)?;
    write(rt, "write-rate-0-and-0-bytes", slow, 0)?;
    write(rt, "write-lo-is-hi-and-0-bytes", equal, 0)?;
    write(rt, "write-mean-0-and-lo-is-hi", none, ROOM)?;
    write(rt, "write-mean-129", wide, ROOM)?;
    write(rt, "write-jump-0-and-lo-is-hi", near, ROOM)?;
    write(rt, "write-jump-2000001", far, ROOM)?;
    write(rt, "write-blank", Settings::blank(), ROOM)
}

// ---- there and back

// Writes the settings of a text: the code and length, or 99 where the bytes are others than those of another text.
fn again(rt: &HostRuntime, name: &str, made: Made, all: &[u8]) -> io::Result<()> {
    let mut buffer = [b'x'; ROOM];
    let (code, len) = told(write_settings(settings_of(made), &mut buffer));
    let same = (len == all.len()) & buffer.starts_with(all);
    say(rt, name, if same { code } else { 99 }, len)
}

// How many of the values beside a code are not zero.
fn beside(rt: &HostRuntime, name: &str, made: Made) -> io::Result<()> {
    let Reading {
        outcome,
        settings,
        ..
    } = read_settings(made.text());
    let set = (0..Settings::LINES).filter(|i| value(settings, *i) != 0);
    say(rt, name, code(outcome), set.count())
}

// Every form is written in full.
fn trips(rt: &HostRuntime) -> io::Result<()> {
    let form = Form::full(Head::Both);
    again(rt, "c-again", form.of(C), C)?;
    again(rt, "short-c-again", Form::short(Head::Both).of(C), C)?;
    again(
        rt,
        "c-with-mean-alone-again",
        Form::full(Head::Mean).of(C),
        C,
    )?;
    again(
        rt,
        "short-c-with-mean-alone-again",
        Form::short(Head::Mean).of(C),
        C,
    )?;
    again(
        rt,
        "c-with-neither-again",
        Form::full(Head::Neither).of(C),
        C,
    )?;
    again(
        rt,
        "short-c-with-neither-again",
        Form::short(Head::Neither).of(C),
        C,
    )
}

fn longest_trips(rt: &HostRuntime) -> io::Result<()> {
    let one = edited(LONGEST, Edit::Change, 7, b"mean=1\n");
    let five = edited(LONGEST, Edit::Change, 8, b"jump=5\n");
    again(rt, "longest-again", Made::of(LONGEST), LONGEST)?;
    again(
        rt,
        "short-longest-with-neither-again",
        Form::short(Head::Neither).of(LONGEST),
        one.text(),
    )?;
    again(rt, "jump-5-again", five, five.text())
}

// "What stands beside the code is the blank."
fn blanks(rt: &HostRuntime) -> io::Result<()> {
    let full = Form::full(Head::Both);
    let short = Form::short(Head::Neither);
    beside(rt, "values-of-c", short.of(C))?;
    beside(rt, "values-of-longest", full.of(LONGEST))?;
    beside(rt, "values-beside-16", full.level())?;
    beside(rt, "values-beside-17", full.level().with(b"x"))?;
    beside(rt, "values-beside-16-in-26-lines", short.level())?;
    beside(rt, "values-beside-14", short.level().with(b"x"))
}

// ---- one decimal

// What a word is called, and the number that it is read as, or wrong.
fn tell(rt: &HostRuntime, name: &str, number: Option<i32>) -> io::Result<()> {
    match number {
        None => println!(rt; "{name} is wrong"),
        Some(x) => {
            print!(rt; "{name} is ")?;
            show(rt, x)
        }
    }
}

fn decimal(rt: &HostRuntime, word: &str) -> io::Result<()> {
    tell(rt, word, read_decimal(word.as_bytes()))
}

// The decimal of a number, as word has it.
fn show(rt: &HostRuntime, x: i32) -> io::Result<()> {
    let text = x.shown();
    rt.write_all(&text.bytes[text.from..])?;
    println!(rt; "")
}

fn decimals(rt: &HostRuntime) -> io::Result<()> {
    for word in ["", "0", "-7", "9999999", "-9999999", "10000000", "-0", "01"] {
        decimal(rt, word)?;
    }
    show(rt, -1)?;
    show(rt, 10)?;
    show(rt, 2147483647)?;
    show(rt, -2147483648)
}

// A word of any length is answered.
fn long_words(rt: &HostRuntime) -> io::Result<()> {
    let nines = [b'9'; 100_000];
    tell(rt, "100000-nines", read_decimal(&nines))?;
    tell(rt, "100000-nines-in-a-journal", read_signed(&nines))
}

fn main(rt: HostRuntime) -> io::Result<()> {
    early(&rt)?;
    forms(&rt)?;
    values(&rt)?;
    ranges(&rt)?;
    orders(&rt)?;
    long_forms(&rt)?;
    means(&rt)?;
    mean_forms(&rt)?;
    jumps(&rt)?;
    jump_forms(&rt)?;
    lengths(&rt)?;
    rooms(&rt)?;
    wrongs(&rt)?;
    trips(&rt)?;
    longest_trips(&rt)?;
    blanks(&rt)?;
    decimals(&rt)?;
    long_words(&rt)
}
