//! Laws of answers and requests: nothing runs, each contract is a law.
ghost use Rattle.std.specs.Prelude.{ℕ, ◌<◌, ◌^◌, List, Some, length, IsUtf8};
ghost use Rattle.http_client.specs.Answers.{IsAnswer, IsSame};
ghost use Rattle.http_client.specs.ReadBack.{IsVisible, IsReadBack};
ghost use Rattle.http_client.specs.declared.remote.requests.Verb.{Verb};
ghost use Rattle.http_client.specs.declared.remote.answers.ServerAnswer.{ServerAnswer};

/// An input has one answer: no two readings of it differ in what they say.
pub fn an_input_is_read_as_one_answer()
    ensures { (input : List ℕ) (a b : ServerAnswer) → IsAnswer (Some input) a → IsAnswer
        (Some input) b
        → IsSame a b }
{}

/// A server reads of a request what it says, where its path and its host have visible bytes alone:
/// its method, its path, its host, and its body with the length of it.
pub fn a_server_reads_what_is_asked()
    ensures { (verb : Verb) (path host body : List ℕ) → IsVisible path → IsUtf8 path
        → IsVisible host → length body < 2 ^ 64
        → IsReadBack verb path host body }
{}
