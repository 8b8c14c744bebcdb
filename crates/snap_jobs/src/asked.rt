// Questions among jobs, which are asked once the store is closed.
ghost use Rattle.std.specs.Prelude.{◌≡◌, IfOk, Ok, Some, false, string_bytes};
ghost use Rattle.serde_json.specs.Find.{as_bool};
ghost use Rattle.snap_json.specs.View.{view};
ghost use Rattle.snap_script.specs.declared.fault.Fault.TheVariants.{BadField};
ghost use Rattle.snap_script.specs.declared.fault.Field.TheVariants as fields;
ghost use Rattle.snap_script.specs.declared.fault.Found.TheVariants as founds;
ghost use Rattle.snap_script.specs.Fields.{optional, text};
ghost use Rattle.snap_script.specs.Gives.{Gives};
ghost use Rattle.snap_call.specs.Questions.{asking};
ghost use Rattle.snap_script.specs.About.{call_subjects, command_answer};
ghost use Rattle.snap_script.specs.declared.answer.Answer.TheVariants as answers;
ghost use Rattle.snap_jobs.specs.Asked.{answer_to, answers_text, asked_command, asked_in, asked_of, is_asking, is_asking_in, is_question, is_quiet_in};

use snap_call::{Question, Reply, is_start};
use snap_json::Value;
use snap_record::Text;
use snap_script::fields::{is_true, lent_text};
use snap_script::{
    Answer, Command, Fault, Field, FieldRule, Found, Line, ReadError, Refused, Subjects, command_in,
};
use snap_store::{Closed, RoundName};
use std::alloc::{AllocError, Global};

// What is asked of the store once it is closed.
#[derive(Drop)]
pub(crate) enum Asked {
    Question(Question),
    // What a snapshot is charged together with its ancestors.
    ChainUsage { namespace: Text, key: Text },
}

fn is_asking(word: &str) -> bool
    ensures { result ≡ is_asking word.now }
{
    word == "stat" || word == "usage" || word == "mounts" || word == "walk"
}

fn has_asking_word(line: &Value<'_>) -> bool
    ensures { result ≡ is_asking_in (text fields.Do (view line.now)) }
{
    match lent_text(Field::Do, line) {
        Ok(word) => is_asking(word),
        Err(_) => false,
    }
}

fn is_quiet(line: &Value<'_>) -> bool
    ensures { result ≡ is_quiet_in (optional as_bool fields.Quiet (Ok false) (view line.now)) }
{
    match is_true(Field::Quiet, line) {
        Ok(quiet) => quiet,
        Err(_) => false,
    }
}

// Whether a line is a question; else it is a job.
pub(crate) fn is_question(line: &Value<'_>) -> bool
    ensures { result ≡ is_question (view line.now) }
{
    has_asking_word(line) && is_quiet(line)
}

// The fault of a command that is no question.
fn no_question(_command: Command<'_>) -> Fault
    ensures { result ≡ BadField fields.Do (Some founds.Text) }
{
    Fault::BadField(Field::Do, Some(Found::Text))
}

// What a command asks.
fn asked_command(alloc: Global, command: Command<'_>) -> Result<Asked, ReadError>
    ensures { Gives (λ asked. asked) result (asked_command command.entry) }
{
    match command {
        Command::Ask(question) => Ok(Asked::Question(question)),
        Command::ChainUsage { namespace, key } => Ok(Asked::ChainUsage {
            namespace: Text::copy_of(alloc, namespace.as_str())?,
            key: Text::copy_of(alloc, key.as_str())?,
        }),
        other => Err(ReadError::Fault(no_question(other))),
    }
}

fn asked_in(alloc: Global, line: Line<'_>) -> Result<Asked, ReadError>
    ensures { Gives (λ asked. asked) result (asked_in line.entry) }
{
    match line {
        Line::Command {
            session: _,
            command,
        } => asked_command(alloc, command),
        Line::Empty => Err(ReadError::Fault(Fault::BadField(Field::Do, Some(Found::Text)))),
    }
}

// What a line asks, read as in a script.
#[tactic(auto, unfolding(crate::specs::Asked::asked_of))]
pub(crate) fn asked_of(alloc: Global, rule: FieldRule, line: &Value<'_>) -> Result<Asked, ReadError>
    ensures { Gives (λ asked. asked) result (asked_of rule (view line.now)) }
{
    let line = command_in(alloc, rule, true, line)?;
    asked_in(alloc, line)
}

// What the refusals of a question are about.
fn question_subjects(question: &Question) -> Subjects
    ensures { result ≡ call_subjects (asking question.now) }
{
    let mut own = Subjects::OF_KEY;
    if let Question::Walk { after, .. } = question {
        own.malformed = if is_start(after.as_str()) {
            Field::Most
        } else {
            Field::After
        };
    }
    own
}

// The answer of a reply, with the field that its refusal is about.
fn reply_answer(own: Subjects, reply: Reply) -> Answer
    ensures { result ≡ command_answer own (answers.Reply reply) }
{
    match reply {
        Reply::Refused(why) => {
            let why = Refused::Book(why);
            Answer::Refused {
                why,
                of: own.about(why),
            }
        }
        reply => Answer::Reply(reply),
    }
}

// What a question is answered of the closed store.
fn answer_to<N: RoundName>(closed: &Closed<N>, asked: &Asked) -> Result<Answer, AllocError>
    ensures { IfOk result (λ answer. answer ≡ answer_to closed.now.state asked.now) }
{
    match asked {
        Asked::Question(question) => Ok(reply_answer(
            question_subjects(question),
            closed.answer(question)?,
        )),
        Asked::ChainUsage { namespace, key } => {
            match closed.chain_usage(namespace.as_str(), key.as_str()) {
                Ok(usage) => Ok(Answer::Reply(Reply::Usage(usage))),
                Err(why) => Ok(reply_answer(Subjects::OF_KEY, Reply::Refused(why))),
            }
        }
    }
}

// The lines of the answers to the questions.
#[tactic(auto, using(crate::proofs::Telling::answers_more))]
pub(crate) fn answers_text<N: RoundName>(
    alloc: Global,
    rule: FieldRule,
    closed: &Closed<N>,
    questions: &[Asked],
) -> Result<String, AllocError>
    ensures { IfOk result (λ text. string_bytes text ≡ answers_text rule closed.now.state questions.now) }
{
    let mut text = String::new(alloc);
    for asked in questions {
        let line = answer_to(closed, asked)?.told(rule).line(alloc)?;
        text.push_str(line.as_str())?;
    }
    Ok(text)
}
