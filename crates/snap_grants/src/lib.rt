//! What a journal leaves committed: a law on all journals that replay.
#![tactic(auto)]

ghost use Rattle.std.specs.Prelude.{◌≡◌, ℕ, List};
ghost use Rattle.snap_call.specs.Journal.{Replays};
ghost use Rattle.snap_call.specs.Records.{open_count};
ghost use Rattle.snap_call.specs.declared.entry.Entry.{Entry};
ghost use Rattle.snap_call.specs.declared.state.State.{State};
ghost use Rattle.snap_grants.specs.Grants.{AreKeeping, AreOrigins, origin_in, CommittedLaw, AreBelow, TapesLaw};

/// Does nothing: its clauses are laws. Where a journal without Remove, Sweep, NamespaceCreate and
/// NamespaceRemove replays from a state without open snapshots, the committed snapshots at its end
/// are those of the start and one for each granted Commit.
#[tactic(auto, using(crate::proofs::Law::committed_law, crate::proofs::Origins::origins, crate::proofs::Tapes::tapes_law))]
pub fn granted_commits()
    // Each has the name, the id and the layer of its Commit, and the namespace and the parent of that
    // id's origin.
    ensures law { (s : State) (es : List Entry) (t : State) → open_count s.records ≡ 0 → AreKeeping es → Replays s es t → CommittedLaw s es t }
    // The journal itself says an id's origin, by the Prepare that was granted it.
    ensures origins { (s : State) (es : List Entry) (t : State) → AreKeeping es → Replays s es t → AreOrigins (origin_in es) es }
    // The law by sessions, where each entry is of one below n.
    ensures tapes { (n : ℕ) (s : State) (es : List Entry) (t : State) → open_count s.records ≡ 0 → AreKeeping es → AreBelow n es → Replays s es t → TapesLaw n s es t }
{}
