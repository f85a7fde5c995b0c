// The commands that a loop is given, and which of them are the same.
#![tactic(auto)]

ghost use Rattle.std.specs.Prelude.{◌≡◌};
ghost use Rattle.command.specs.Command.{same};

#[derive(Clone, Copy, Debug, PartialEq, Eq)]
pub enum Command {
    Sample(i32),
    Hold,
    Put(i32),
    Automatic,
    Target(i32, i32),
    Set(i32),
}

impl Command {
    // "same command with same values": the equality that its contract names.
    pub fn same(self, other: Command) -> bool
        ensures { result ≡ same self other }
    {
        self == other
    }
}
