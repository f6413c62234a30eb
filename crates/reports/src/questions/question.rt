//! A question that comes in as words.
ghost use Rattle.std.specs.Prelude.{◌≡◌};
ghost use Rattle.reports.specs.questions.Questions.{question_of};

use find_path_spec::{Query, Question};
use snapshot::ids::{DefinitionId, ModuleId};
use snapshot::reading::word;

/// The question whose fields the words are.
// No `From`: more words may follow, as in a batch, and a word that is missing is 0.
pub fn question_of(words: &[u32]) -> Question
    ensures { result ≡ question_of words.now }
{
    let query = Query {
        ns: word(words, 0),
        definition: DefinitionId(word(words, 1)),
        from: ModuleId(word(words, 2)),
        prefix: word(words, 3),
        options: word(words, 4),
        limit: word(words, 6),
    };
    Question {
        query,
        fuel: word(words, 5),
    }
}
