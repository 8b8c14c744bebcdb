// Texts, labels and their updates, filters, and what a snapshot's content says.
ghost use Rattle.std.specs.Prelude.{◌≡◌, ◌∷◌, []};

use crate::setup::{equal, text, usage};
use snap_record::{
    Content, Filter, Info, Kind, LabelFilter, Labels, Sequence, Text, matches, updated_labels,
};
use std::alloc::Global;
use std::process::Abort;

/// The labels with this one alone.
fn one_label<R: Abort>(rt: &R, alloc: Global, key: &str, value: &str) -> Labels
    ensures { result ≡ (key.now, value.now) ∷ [] }
{
    let mut labels = Labels::new(alloc);
    let inserted = labels.insert(text(rt, alloc, key), text(rt, alloc, value));
    inserted.expect(rt, "memory for a label");
    labels
}

#[test]
fn texts_and_contents(rt: HostRuntime) {
    let none = Text::new(rt.alloc()).is_empty();
    prove!(none);
    let base = text(&rt, rt.alloc(), "base");
    let base = base.as_str();
    prove!(base == "base");
    let layers = Sequence::new(rt.alloc());
    let view = Content::View { layers };
    let (kind, used) = (view.kind(), view.usage());
    prove!(matches!(&kind, Kind::View));
    prove!(used.blocks == 0 && used.inodes == 0);
    let (slot, charged) = (0, usage(4, 3));
    let active = Content::Active { slot, charged };
    let (word, used) = (active.kind().as_str(), active.usage());
    prove!(used.blocks == 4 && used.inodes == 3);
    prove!(word == "Active");
}

#[test]
fn a_label_is_removed(rt: HostRuntime) {
    let mut labels = one_label(&rt, rt.alloc(), "x", "1");
    let valid = labels.are_valid();
    prove!(valid);
    labels.remove(&text(&rt, rt.alloc(), "x"));
    let empty = labels.is_empty();
    prove!(empty);
}

// What an update makes of labels is computed beside the definition; this one is made.
#[test]
fn an_update_is_made(rt: HostRuntime) {
    let labels = one_label(&rt, rt.alloc(), "y", "2");
    let path = [text(&rt, rt.alloc(), "labels.x")];
    let given = one_label(&rt, rt.alloc(), "x", "9");
    let made = updated_labels(&labels, &given, &path);
    equal(&rt, made.expect(&rt, "memory for labels").len(), 2);
}

/// A view `q` with the label `x`.
fn view<R: Abort>(rt: &R, alloc: Global) -> Info {
    Info {
        kind: Kind::View,
        name: text(rt, alloc, "q"),
        parent: Text::new(alloc),
        labels: one_label(rt, alloc, "x", "1"),
        created: 2,
        updated: 2,
        id: 1,
    }
}

#[test]
fn filters(rt: HostRuntime) {
    let info = view(&rt, rt.alloc());
    for (name, kind, label, wanted) in [
        ("its kind", Some(Kind::View), None, true),
        ("another kind", Some(Kind::Active), None, false),
        ("its label", None, Some(("x", None)), true),
        ("its label, empty", None, Some(("x", Some(""))), false),
        ("another label", None, Some(("y", None)), false),
    ] {
        let mut labels = Sequence::new(rt.alloc());
        if let Some((key, value)) = label {
            let key = text(&rt, rt.alloc(), key);
            let value = match value {
                Some(value) => Some(text(&rt, rt.alloc(), value)),
                None => None,
            };
            let pushed = labels.push(LabelFilter { key, value });
            pushed.expect(&rt, "memory for a label");
        }
        let filter = Filter {
            name: None,
            parent: None,
            kind,
            labels,
        };
        equal(&rt, (name, matches(&info, &filter)), (name, wanted));
    }
}
