// Forms, the state of a new store, and records. Witnesses: they are proved, and not run. A state and records
// are handed back, since to let them go is dear to prove.
use crate::setup::{config, text};
use snap_call::{Records, State, is_key, is_limit, is_parent};
use snap_record::{Content, Labels, Record, Text};
use snap_usage::Usage;
use std::alloc::Global;
use std::process::Abort;

// A key is not empty, and a parent may be. A limit is at most 2^40 of each quantity. A root begins with a slash. A
// store is opened with its namespaces.
fn opened<R: Abort>(rt: &R, alloc: Global) -> State {
    let (key, no_key, parent) = (is_key("k"), is_key(""), is_parent(""));
    prove!(key && !no_key && parent);
    let most = is_limit(Usage {
        blocks: 1_099_511_627_776,
        inodes: 1_099_511_627_776,
    });
    let more = is_limit(Usage {
        blocks: 0,
        inodes: 1_099_511_627_777,
    });
    prove!(most && !more);
    let hundred = Usage {
        blocks: 100,
        inodes: 100,
    };
    let mut config = config(rt, alloc, hundred, 100);
    config.root = text(rt, alloc, "r");
    let is_valid = config.is_valid();
    prove!(!is_valid);
    config.root = text(rt, alloc, "/r");
    let is_valid = config.is_valid();
    prove!(is_valid);
    let state = State::opening(alloc, config).expect(rt, "memory for namespaces");
    let (first, none) = (state.place_of("a"), state.place_of("z"));
    prove!(first == Some(0) && none == None);
    let limit = state.limit_at(0);
    prove!(limit == hundred);
    prove!(state.next_id == 1);
    state
}

// A record stands in its namespace and in its slot, and its charge is that of the slot.
fn placed<R: Abort>(rt: &R, alloc: Global) -> Records {
    let one = Usage {
        blocks: 1,
        inodes: 1,
    };
    let mut records = Records::new(alloc);
    let record = Record {
        namespace: 0,
        key: text(rt, alloc, "k"),
        parent: Text::new(alloc),
        id: 1,
        labels: Labels::new(alloc),
        created: 1,
        updated: 1,
        content: Content::Active {
            slot: 5,
            charged: one,
        },
    };
    let held = records.hold(record).expect(rt, "memory for a record");
    let added = records.insert(held);
    added.expect(rt, "memory for its place");
    let (there, other) = (records.has_key(0, "k"), records.has_key(1, "k"));
    prove!(there && !other);
    let (open, free) = (records.is_open(5), records.is_open(0));
    prove!(open && !free);
    let more = Usage {
        blocks: 4,
        inodes: 3,
    };
    records.recharge(5, more);
    let Some(record) = records.active_at(5) else {
        unreachable!()
    };
    let charged = record.content.usage();
    prove!(charged == more);
    records
}
