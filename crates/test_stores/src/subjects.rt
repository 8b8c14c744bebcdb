// What refusals are about, whatever the bodies are.
use snap_call::Refusal;
use snap_merge::FsError;
use snap_script::{Field, Refused, Subjects};

#[test]
fn refusals_are_about_fields() {
    let own = Subjects::of_new("k", "p");
    let missing = own.about(Refused::Book(Refusal::NotFound));
    let taken = own.about(Refused::Book(Refusal::AlreadyExists));
    prove!(missing == Some(Field::Parent) && taken == Some(Field::Key));
    let full = own.about(Refused::Book(Refusal::JournalFull));
    prove!(full == None);
    let own = Subjects::of_new("", "p");
    let first = own.about(Refused::Book(Refusal::BadArgument));
    prove!(first == Some(Field::Key));
    let own = Subjects::of_commit("c", &None);
    let named = own.about(Refused::Book(Refusal::AlreadyExists));
    let active = own.about(Refused::Book(Refusal::NotFound));
    prove!(named == Some(Field::Name) && active == Some(Field::Key));
    let walked = own.about(Refused::File(FsError::NotFound));
    prove!(walked == Some(Field::Path));
}
