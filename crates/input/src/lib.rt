// The desk program's input: whether it is of the stated form, and if so the client's check of the
// parts that it holds, and the making step with what the check gives. It reads and prints nothing; the
// bytes are whatever the program was given.
//
// What an input's parts are and what is to be said of it stands in specs/. The report is that, for
// every input of any length.
#![tactic(auto)]

ghost use Rattle.std.specs.Prelude.{◌≡◌, ◌⊎◌, ◌+◌, ◌*◌, ◌%◌, ◌<◌, ◌≤◌, [], length, is_some, IfSome, MatchOption};
ghost use Rattle.layout.specs.Bytes.{parts};
ghost use Rattle.refusal.specs.Refusal.{said};
ghost use Rattle.input.specs.Form.{users as users_of, user as user_of, handle as handle_of, memory as memory_of, sent as sent_of, formed, behind_memory, first_marks, first_records};
ghost use Rattle.input.specs.Report.{answer, answered, judgement, Reports};

use arrayvec::ArrayVec;
use client::Verdict;
use protocol::RECORDS;
use refusal::Refusal;
use version::SIZE;

// Where the handle, the flag and what is remembered stand, the bytes of a mark with its record, and those of
// the longest input.
const HANDLE: usize = 2;

const FLAG: usize = 34;

const MEMORY: usize = 35;

const MARKED: usize = 99;

const LONGEST: usize = 1717;

// What is said of an input: its first two bytes, 0 where it has none; and, unless it is of another form, the
// refusal, or the counts of the accepted structure.
#[derive(Clone, Copy)]
pub struct Report {
    pub users: u8,
    pub user: u8,
    pub judged: Option<Result<[u32; 16], Refusal>>,
}

// The parts of an input of the stated form behind its first two bytes: the handle, the remembered structure (no
// bytes for none), and what the server sent.
#[derive(Clone, Copy)]
struct Parts<'a> {
    handle: &'a [u8],
    memory: &'a [u8],
    sent: &'a [u8],
    ghost none_or_one: { (length memory.now % 98 ≡ 0) × (length memory.now ≤ 98) },
    ghost sixteen_at_most: { length sent.now < 17 * 99 },
}

// How many bytes are remembered, by the flag, which is 0 or 1.
fn remembered(flag: u8) -> Option<usize>
    ensures { MatchOption result (1 < flag) (λ n. (flag ≤ 1) × (35 + n ≡ behind_memory flag)) }
{
    match flag {
        0 => Some(0),
        1 => Some(SIZE),
        _ => None,
    }
}

// The parts of an input, if it is of the stated form. A length of at most 1,717 leaves room for sixteen records at most.
fn parse(input: &[u8]) -> Option<Parts<'_>>
    ensures variant { is_some result ≡ formed input.now }
    ensures handle { IfSome result (λ p. p.handle.now ≡ handle_of input.now) }
    ensures memory { IfSome result (λ p. p.memory.now ≡ memory_of input.now) }
    ensures sent { IfSome result (λ p. p.sent.now ≡ sent_of input.now) }
{
    if input.len() < MEMORY || LONGEST < input.len() {
        return None;
    }
    let (head, rest) = input.split_at(MEMORY);
    let n = remembered(head[FLAG])?;
    if rest.len() < n {
        return None;
    }
    let (memory, sent) = rest.split_at(n);
    if sent.len() % MARKED != 0 {
        return None;
    }
    Some(Parts {
        handle: &input[HANDLE..FLAG],
        memory,
        sent,
    })
}

// The marks and the records of what the server sent, each after the last.
fn take_apart(sent: &[u8], marks: &mut ArrayVec<u8, 16>, list: &mut ArrayVec<u8, RECORDS>)
    requires sent_len { length sent.now < 17 * 99 }
    requires no_marks { marks.old.items ≡ [] }
    requires no_list { list.old.items ≡ [] }
    ensures marks { marks.new.items ≡ first_marks sent.now (parts 99 sent.now) }
    ensures list { list.new.items ≡ first_records sent.now (parts 99 sent.now) }
{
    for i in 0..sent.len() / MARKED {
        marks.push(sent[MARKED * i]);
        list.try_extend_from_slice(&sent[MARKED * i + 1..MARKED * i + MARKED])
            .unwrap();
    }
}

// The check of what is remembered and of these records and marks, and the making step after it. Both take a
// memory file: that of what is remembered, which is laid out unjudged, since it is the check that judges it, in
// its turn. Such a file is not pending, so that the check never says "send again"; 5 would be told.
fn ask(
    users: u8,
    user: u8,
    handle: &[u8],
    memory: &[u8],
    list: &[u8],
    marks: &[u8],
) -> Result<[u32; 16], Refusal>
    requires { (length memory.now ≡ 0) ⊎ (length memory.now ≡ 98) }
    ensures { answer (said result) ≡ answered users user memory.now list.now marks.now handle.now }
{
    let file = memory::file_of(memory);
    match client::check(users, user, &file, list, marks)? {
        Verdict::Next(counts) => {
            let mut new = [0u8; SIZE];
            create::create(users, user, &file, &counts, handle, &mut new)?;
            Ok(version::counts(&new))
        }
        Verdict::Again(_) => Err(Refusal::NotCurrent),
    }
}

// The answer to an input of which these are the parts.
fn checked(users: u8, user: u8, input: &Parts) -> Result<[u32; 16], Refusal>
    ensures { answer (said result) ≡ answered users user input.now.memory.now
        (first_records input.now.sent.now (parts 99 input.now.sent.now))
        (first_marks input.now.sent.now (parts 99 input.now.sent.now)) input.now.handle.now }
{
    let mut marks = ArrayVec::new();
    let mut list = ArrayVec::new();
    take_apart(input.sent, &mut marks, &mut list);
    ask(
        users,
        user,
        input.handle,
        input.memory,
        list.as_slice(),
        marks.as_slice(),
    )
}

// The report on an input: it is of another form, or it holds u, N and all that the two calls are asked
// about, and this is their answer.
//
// Any bytes of any length are taken, and nothing is kept.
#[inline(never)]
pub fn judge(input: &[u8]) -> Report
    ensures { Reports (judgement input.now) (users_of input.now) (user_of input.now) result }
{
    let users = layout::byte_at(input, 0);
    let user = layout::byte_at(input, 1);
    Report {
        users,
        user,
        judged: parse(input).map(|parts| checked(users, user, &parts)),
    }
}
