// Figures that follow from the contracts of a store's calls alone. Witnesses: they are proved, and not run.
use snap_book::{Active, Held};
use snap_record::Labels;
use snap_store::{RoundName, Session, Store};
use snap_usage::Usage;
use std::sync::Wait;
use std::test::Fail;

// A granted call leaves one entry on the tape. Where 2/2 are needed and wanted of a snapshot that is charged no more,
// it is charged 2/2. A session's tape begins with its own entry.
fn taped<N: RoundName, R: Wait>(
    rt: &R,
    store: &Store<N>,
    session: &mut Session,
    active: &mut Active<N>,
) -> Result<Session, Fail> {
    let before = session.tape().len();
    store.usage(rt, session, "a", "k")?;
    let after = session.tape().len();
    prove!(after == before + 1);
    let two = Usage {
        blocks: 2,
        inodes: 2,
    };
    let before = active.share();
    if before.blocks <= 2 && before.inodes <= 2 {
        store.charge(rt, session, active, two, two)?;
        let after = active.share();
        prove!(after.blocks == 2);
        prove!(after.inodes == 2);
    }
    let begun = store.session(rt)?;
    let entries = begun.tape().len();
    prove!(entries == 1);
    Ok(begun)
}

// A new snapshot is charged 1/1 for its root, and gives it back.
fn freed<N: RoundName, R: Wait>(
    rt: &R,
    store: &Store<N>,
    session: &mut Session,
    labels: &Labels,
) -> Result<(), Fail> {
    session.reserve(2)?;
    let active = store.prepare(rt, session, "a", "k", "", labels)?;
    let (share, spare) = (active.share(), active.spare());
    let freed = store.discard(rt, session, Held::Active(active));
    prove!(share.blocks == 1);
    prove!(spare.inodes == 0);
    prove!(freed.blocks == 1);
    prove!(freed.inodes == 1);
    Ok(())
}
