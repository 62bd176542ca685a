//! What can be shown of a journal, and the words that ask for it.
ghost use Rattle.std.specs.Prelude.{◌≡◌};
ghost use Rattle.text_codec.specs.Formats.{first_spelled};
ghost use Rattle.view_commands.specs.Words.{asked, view_word};

use drmaa_types::TextList;

/// What can be shown of a journal.
#[derive(Clone, Copy, Debug, PartialEq, Eq)]
pub enum View {
    /// Its jobs, and how many there are of each kind.
    Jobs,
    /// Their runs.
    Log,
    /// Why each job that waits is not launched.
    Why,
    /// A chart of their runs, as SVG.
    Chart,
}

/// All views.
pub const VIEWS: [View; 4] = [View::Jobs, View::Log, View::Why, View::Chart];

/// The word that asks for a view.
pub fn spell_view(view: View) -> &'static str
    ensures { result.now ≡ view_word view }
{
    match view {
        View::Jobs => "jobs",
        View::Log => "log",
        View::Why => "why",
        View::Chart => "chart",
    }
}

/// The view that a word asks for.
fn view_in(word: &[u8]) -> Option<View>
    ensures { result ≡ first_spelled view_word VIEWS word.now }
{
    VIEWS
        .iter()
        .copied()
        .find(|view| spell_view(*view).as_bytes() == word)
}

/// The view that the words ask for: that of the one word.
pub fn view_of(words: &TextList) -> Option<View>
    ensures { result ≡ asked words.now }
{
    match words.as_slice() {
        [word] => view_in(word.as_str().as_bytes()),
        _ => None,
    }
}
