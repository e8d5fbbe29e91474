// What the words of the program ask for.
ghost use Rattle.std.specs.Prelude.{◌≡◌, ◌≤◌, IfSome};
ghost use Rattle.std.specs.Option.{option_map};
ghost use Rattle.sk_app.specs.Lent.{asked, command, words_of};
ghost use Rattle.sk_app.specs.Command.{asked_of, command_of, count_of, report_of, regen_of, draw_of, make_of};

use itoa::Buffer;
use sk_num::read_handle;
use sk_types::GroupId;

/// A command with what it takes; names are those of files.
#[derive(Clone, Copy)]
pub(crate) enum Command<'w> {
    /// The report of a model.
    Report {
        /// The model.
        model: &'w str,
    },
    /// The report of a model, and its regenerated text.
    Regen {
        /// The model.
        model: &'w str,
        /// The file for the text.
        out: &'w str,
    },
    /// The report of a model, and the drawing of one of its groups.
    Draw {
        /// The model.
        model: &'w str,
        /// The group.
        group: GroupId,
        /// The file for the drawing.
        out: &'w str,
    },
    /// The text of a made model, regenerated, with a line that tells how it comes out.
    Make {
        /// How many lines it has.
        lines: u8,
        /// The file for the text.
        out: &'w str,
    },
}

/// A command, and whether its numbers are on the finer grid.
#[derive(Clone, Copy)]
pub(crate) struct Asked<'w> {
    pub(crate) fine: bool,
    pub(crate) command: Command<'w>,
}

fn read_report<'w>(words: &[&'w str]) -> Option<Command<'w>>
    ensures { option_map command result ≡ report_of (words_of words.now) }
{
    match words {
        [model] => Some(Command::Report { model }),
        _ => None,
    }
}

fn read_regen<'w>(words: &[&'w str]) -> Option<Command<'w>>
    ensures { option_map command result ≡ regen_of (words_of words.now) }
{
    match words {
        [model, out] => Some(Command::Regen { model, out }),
        _ => None,
    }
}

fn read_draw<'w>(words: &[&'w str]) -> Option<Command<'w>>
    ensures { option_map command result ≡ draw_of (words_of words.now) }
{
    match words {
        [model, group, out] => match read_handle(group.as_bytes()) {
            Ok(group) => Some(Command::Draw {
                model,
                group: GroupId(group),
                out,
            }),
            Err(_) => None,
        },
        _ => None,
    }
}

// The count from 1 to 90 that is written so.
#[tactic(auto, using(crate::proofs::Counts::from_one, crate::proofs::Counts::is_written, crate::proofs::Counts::is_other, crate::proofs::Counts::none_left))]
fn read_count(word: &str) -> Option<u8>
    ensures value { result ≡ count_of word.now }
    ensures most { IfSome result (λ n. n ≤ 90) }
{
    for count in 1..91 {
        if Buffer::new().format(count) == word {
            return Some(count);
        }
    }
    None
}

fn read_make<'w>(words: &[&'w str]) -> Option<Command<'w>>
    ensures { option_map command result ≡ make_of (words_of words.now) }
{
    match words {
        [count, out] => match read_count(count) {
            Some(lines) => Some(Command::Make { lines, out }),
            None => None,
        },
        _ => None,
    }
}

fn read_command<'w>(words: &[&'w str]) -> Option<Command<'w>>
    ensures { option_map command result ≡ command_of (words_of words.now) }
{
    match words {
        [word, rest @ ..] => match *word {
            "report" => read_report(rest),
            "regen" => read_regen(rest),
            "dxf" => read_draw(rest),
            "make" => read_make(rest),
            _ => None,
        },
        [] => None,
    }
}

/// The command that the words are, and its grid; None where they are no command.
pub(crate) fn read_words<'w>(words: &[&'w str]) -> Option<Asked<'w>>
    ensures { option_map asked result ≡ asked_of (words_of words.now) }
{
    let (fine, rest) = match words {
        [word, rest @ ..] if *word == "fine" => (true, rest),
        _ => (false, words),
    };
    match read_command(rest) {
        Some(command) => Some(Asked { fine, command }),
        None => None,
    }
}
