//! The words of a command.
ghost use Rattle.std.specs.Prelude.{◌≡◌, map, string_bytes};
ghost use Rattle.serial_session.specs.Command.{command_of};

/// A command of the program.
#[derive(Clone, Copy, Debug, PartialEq, Eq)]
pub enum Command {
    /// The session, with no worker.
    Serve,
}

/// The command that these words are, which are those behind the program's own name: `serve`, or
/// `serve --workers 0`. `None` exactly where they are neither.
pub fn parse_words(words: &[String]) -> Option<Command>
    ensures { result ≡ command_of (map string_bytes words.now) }
{
    match words {
        [word] if word.as_str() == "serve" => Some(Command::Serve),
        [word, option, number]
            if word.as_str() == "serve"
                && option.as_str() == "--workers"
                && number.as_str() == "0" => { Some(Command::Serve) }
        _ => None,
    }
}
