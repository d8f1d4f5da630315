//! What the programs say of themselves.
ghost use Rattle.std.specs.Prelude.{◌≡◌, IfOk, map, option_map, string_bytes};
ghost use Rattle.tool_help.specs.Answers.{Says, line_of};
ghost use Rattle.client_plans.specs.Texts.{usage_text, help_text, version_text, text_of_word, asked_text};

use afs_words::Tool;
use std::alloc::Global;
use tool_help::{Said, tool_name};
use ubik_types::NoMemory;

const VOS_USAGE: &str = "\
vos asks the location database of a cell, and changes it.

  vos OPERATION ..                  does an operation
  vos help                          lists the operations
  vos help OPERATION                says what it does, and how it is typed
  vos apropos WORD                  lists the operations that speak of the word
  vos source FILE                   does the operations in a file, one a line;
                                    - is standard input
  vos --help, vos --version         says this, the version
";

const PTS_USAGE: &str = "\
pts asks the protection database of a cell, and changes it.

  pts OPERATION ..                  does an operation
  pts help                          lists the operations
  pts help OPERATION                says what it does, and how it is typed
  pts apropos WORD                  lists the operations that speak of the word
  pts source FILE                   does the operations in a file, one a line;
                                    - is standard input
  pts --help, pts --version         says this, the version
";

/// What is said behind the usage of either.
const HELP_END: &str = "
The servers of the cell, as ADDRESS,ADDRESS,.., come from -hosts ADDRESS,..
at any place behind the command's name; else from CAVYGOLD_HOSTS in the
environment; else from the line CAVYGOLD_HOSTS= of /etc/cavygold/cell.

Exit statuses:
  0  done
  1  refused, as the line on standard error says
  2  the words mean nothing
  3  no server took the call
  4  standard output or standard error failed
  5  memory ran out
  6  outcome unknown: a change may have been made, or not
";

const VOS_VERSION: &str = "vos 0.1.0\n";

const PTS_VERSION: &str = "pts 0.1.0\n";

/// How a command is typed.
fn usage_text(tool: Tool) -> &'static str
    ensures { result.now ≡ usage_text tool }
{
    match tool {
        Tool::Vos => VOS_USAGE,
        Tool::Pts => PTS_USAGE,
    }
}

/// What `--help` says.
fn help_text(alloc: Global, tool: Tool) -> Result<String, NoMemory>
    ensures { IfOk result (λ text. string_bytes text ≡ help_text tool) }
{
    let mut text = String::from_str(alloc, usage_text(tool))?;
    text.push_str(HELP_END)?;
    Ok(text)
}

/// What `--version` says.
fn version_text(tool: Tool) -> &'static str
    ensures { result.now ≡ version_text tool }
{
    match tool {
        Tool::Vos => VOS_VERSION,
        Tool::Pts => PTS_VERSION,
    }
}

/// The text for which a word asks that stands alone.
fn text_of_word(alloc: Global, tool: Tool, word: &str) -> Result<Option<String>, NoMemory>
    ensures { IfOk result (λ text. option_map string_bytes text ≡ text_of_word tool word.now) }
{
    match word {
        "--help" => Ok(Some(help_text(alloc, tool)?)),
        "--version" => Ok(Some(String::from_str(alloc, version_text(tool))?)),
        _ => Ok(None),
    }
}

/// The text for which the words of a program ask.
pub fn asked_text(alloc: Global, tool: Tool, words: &[String]) -> Result<Option<String>, NoMemory>
    ensures { IfOk result (λ text. option_map string_bytes text ≡ asked_text tool (map string_bytes words.now)) }
{
    match words {
        [only] => text_of_word(alloc, tool, only.as_str()),
        _ => Ok(None),
    }
}

/// A text for standard output, with status 0.
pub fn told(text: String) -> Said
    ensures { Says result 0 (string_bytes text) }
{
    Said { status: 0, text }
}

/// A line for standard error, with status 2.
pub fn refused(alloc: Global, tool: Tool, why: &str) -> Result<Said, NoMemory>
    ensures { IfOk result (λ said. Says said 2 (line_of tool why.now)) }
{
    let mut text = String::new(alloc);
    let command = tool_name(tool);
    write!(text, "{command}: {why}\n")?;
    Ok(Said { status: 2, text })
}
