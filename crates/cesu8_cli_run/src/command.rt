//! The words of a command.

ghost use Rattle.std.specs.Prelude.{MatchOption};
ghost use Rattle.cesu8_cli_run.specs.Command.{AreWordsOf, AreNoCommand};

/// The commands of the program.
#[derive(Clone, Copy, Debug)]
pub enum Command {
    /// Encodes UTF-8.
    Encode(FlavorWord),
    /// Reports whether UTF-8 needs encoding.
    Needs(FlavorWord),
    /// Decodes UTF-8 as a whole, or else the encoding.
    Decode(FlavorWord),
    /// Decodes the encoding alone.
    DecodeStrict(FlavorWord),
    /// Decodes UTF-8 as a whole, or else the encoding, which may be damaged.
    Lossy(FlavorWord),
    /// Decodes the encoding alone, which may be damaged.
    LossyStrict(FlavorWord),
    /// Writes UTF-8 as a Java string, which is MUTF-8 after its length.
    JavaWrite,
    /// Reads one Java string.
    JavaRead,
}

/// The encoding that the second word names.
#[derive(Clone, Copy, Debug)]
pub enum FlavorWord {
    Cesu8,
    Mutf8,
}

/// Returns the command with exactly these words.
pub fn parse(words: &[&str]) -> Option<Command>
    ensures { MatchOption result (AreNoCommand words.now)
        (λ command. AreWordsOf command words.now) }
{
    let [command, flavor] = words else {
        return None;
    };
    let flavor = match *flavor {
        "cesu8" => FlavorWord::Cesu8,
        "mutf8" => FlavorWord::Mutf8,
        _ => return None,
    };
    match (*command, flavor) {
        ("encode", _) => Some(Command::Encode(flavor)),
        ("needs", _) => Some(Command::Needs(flavor)),
        ("decode", _) => Some(Command::Decode(flavor)),
        ("decode-strict", _) => Some(Command::DecodeStrict(flavor)),
        ("lossy", _) => Some(Command::Lossy(flavor)),
        ("lossy-strict", _) => Some(Command::LossyStrict(flavor)),
        ("java-write", FlavorWord::Mutf8) => Some(Command::JavaWrite),
        ("java-read", FlavorWord::Mutf8) => Some(Command::JavaRead),
        _ => None,
    }
}
