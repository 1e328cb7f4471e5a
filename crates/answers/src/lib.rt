// An answer is held to what a query is held to, the numbers of its variables apart (document 02, C-14): in a copy each of them becomes 0.
#![tactic(auto)]

ghost use Rattle.std.specs.Prelude.{◌≡◌, ◌+◌, ◌<◌, ◌≤◌, length, get_or, take, ltb};
ghost use Rattle.format.specs.Reading.{body_length};
ghost use Rattle.printouts.specs.Answer.{clear_at, unnumbered, answer_verdict};

use format::Check;
use records::check_query;
use records::record::{body_length, next_at};

fn is_whole(bytes: &[u8], at: usize) -> bool
    ensures { result ≡ ltb (at + body_length (get_or bytes.now at 0)) (length bytes.now) }
{
    at < bytes.len() && body_length(bytes[at]) < bytes.len() - at
}

// The kind 01 of a variable stays a byte, as where records are read (records/src/record.rt).
fn clear_at(copy: &mut [u8], at: usize)
    requires { at + body_length (get_or copy.old at 0) < length copy.old }
    ensures { copy.new ≡ clear_at copy.old at }
{
    if copy[at] == 1 {
        copy[at + 1] = 0;
        copy[at + 2] = 0;
    }
}

fn clear(copy: &mut [u8])
    ensures { copy.new ≡ unnumbered copy.old }
{
    let mut at = 0;
    while is_whole(copy, at) {
        let next = next_at(copy, at);
        clear_at(copy, at);
        at = next;
    }
}

// By a loop: `copy_from_slice` makes a number of how far apart two slices lie, and an archive makes none (docs/PORTS.md).
fn fill(copy: &mut [u8], answer: &[u8])
    requires { length answer.now ≤ length copy.old }
    ensures { take (length answer.now) copy.new ≡ answer.now }
{
    for i in 0..answer.len() {
        copy[i] = answer[i];
    }
}

fn check_cleared(book: &[u8], copy: &mut [u8]) -> Check
    ensures { result ≡ answer_verdict book.now copy.old }
{
    clear(copy);
    check_query(book, copy)
}

fn check_copy(book: &[u8], answer: &[u8], copy: &mut [u8]) -> Check
    requires { length answer.now ≤ length copy.old }
    ensures { result ≡ answer_verdict book.now answer.now }
{
    fill(copy, answer);
    let part = &mut copy[..answer.len()];
    check_cleared(book, part)
}

// "a query over 16,387 bytes is code 15 at place 16,387, before any record is read"
pub fn check_answer(book: &[u8], answer: &[u8]) -> Check
    ensures { result ≡ answer_verdict book.now answer.now }
{
    if 16387 < answer.len() {
        return check_query(book, answer);
    }
    let mut copy = [0u8; 16387];
    check_copy(book, answer, &mut copy)
}
