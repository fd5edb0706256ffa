//! Laws, of which nothing runs: a server finds what a command asks, and what it did is told as it
//! is over the book in its file.
ghost use Rattle.std.specs.Prelude.{◌≡◌, true, Some, filter, map};
ghost use Rattle.std.specs.List.{AllByRecursion};
ghost use Rattle.definitions.specs.Header.{Who as Partner};
ghost use Rattle.definitions.specs.Reports.{outbox_list};
ghost use Rattle.definitions.specs.Response.{reply_response};
ghost use Rattle.store.specs.Runs.{told};
ghost use Rattle.intake.specs.Calls.{Call, call_of, deed_reply, tried};
ghost use Rattle.commands.specs.Clerks.{depositor_of};
ghost use Rattle.commands.specs.HandingOn.{is_document};
ghost use Rattle.commands.specs.Looking.{is_readable};
ghost use Rattle.http_client.specs.Listed.{IsListed, documents_in};
ghost use Rattle.http_client.specs.Paths.{deed_call, deed_path, look_path, show_call, tried_at};
ghost use Rattle.http_client.specs.Told.{HasReplyText, IsReplyToInterchange, IsToldAs};

use command_line::{ClerkWords, Show};
use store::{OutRow, Reply};

/// What a server responds to a clerk's act is told as the reply to it.
pub fn an_act_is_told_as_over_the_book(reply: &Reply)
    ensures { HasReplyText reply.now → IsToldAs reply.now (deed_reply (told reply.now)) }
{
    let _ = reply;
}

/// What a server responds to an interchange is told as the reply to it.
pub fn an_interchange_is_told_as_over_the_book(reply: &Reply)
    ensures { IsReplyToInterchange reply.now
        → IsToldAs reply.now (reply_response (told reply.now)) }
{
    let _ = reply;
}

/// A server finds a clerk's act, of words that can be read, at the path to which its sheet is
/// posted.
pub fn an_act_is_asked_where_it_is_taken(words: &ClerkWords<'_>)
    ensures { (who : Partner) → depositor_of words.now ≡ Some who
        → call_of (deed_path words.now)
        ≡ Some (deed_call words.now.kind words.now.who.now words.now.ticket.now
        words.now.number.now) }
{
    let _ = words;
}

/// A server finds a clerk's act, of words that can be read, to be tried at the path to which its
/// sheet is posted then.
pub fn an_act_is_tried_where_it_is_taken(words: &ClerkWords<'_>)
    ensures { (who : Partner) → depositor_of words.now ≡ Some who
        → call_of (tried_at (deed_path words.now))
        ≡ tried (Some (deed_call words.now.kind words.now.who.now words.now.ticket.now
        words.now.number.now)) }
{
    let _ = words;
}

/// A server finds a picking sheet, the stock as CSV, what is open, and who is enrolled at the paths
/// at which a command asks for them.
pub fn what_clerks_look_at_is_asked_where_it_is_shown(show: &Show<'_>)
    ensures { is_readable show.now ≡ true → (call : Call) → show_call show.now ≡ Some call
        → call_of (look_path show.now) ≡ Some call }
{
    let _ = show;
}

/// A list of what went out tells the documents among its rows, in their order, where each row has
/// the number of an entry and words of one line.
pub fn a_list_tells_its_documents(rows: &[OutRow])
    ensures { AllByRecursion IsListed rows.now
        → documents_in (outbox_list rows.now) ≡ map (λ r. r.n) (filter is_document rows.now) }
{
    let _ = rows;
}
