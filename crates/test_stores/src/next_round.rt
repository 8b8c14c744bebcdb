// The next round of a book. A witness: it is proved, and not run.
ghost use Rattle.std.specs.Prelude.{◌≡◌, OnOk};
ghost use Rattle.snap_call.specs.Records.{open_count};

use snap_book::Book;
use snap_call::Refusal;
use snap_ledger::StoreName;

// A round of more entries than a journal has is refused, and changes nothing. Another begins without entries and
// without sessions, and with the snapshots that there were; its first session has the number 0 again.
fn begun<N: StoreName>(book: &mut Book<N>) -> Result<(), Refusal>
    requires { open_count book.old.state.records ≡ 0 }
    ensures records { OnOk result (book.new.state.records ≡ book.old.state.records) }
    ensures limit { OnOk result (book.new.limit ≡ 50) }
{
    let kept = book.journal().len();
    let answer = book.next_round(1_048_577);
    let entries = book.journal().len();
    prove!(answer == Err(Refusal::BadArgument));
    prove!(entries == kept);
    book.open_session()?;
    let before = book.last_entry();
    book.next_round(50)?;
    let (entries, sessions, last) = (book.journal().len(), book.sessions(), book.last_entry());
    prove!(entries == 0);
    prove!(sessions == 0);
    prove!(last == before);
    let first = book.open_session()?;
    prove!(first == 0);
    Ok(())
}
