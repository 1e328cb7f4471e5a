// Books and goals as words, one to a node, in lent storage; and a goal's words written as its image.
#![tactic(auto)]

ghost use Rattle.std.specs.Prelude.{◌≡◌, ◌+◌, ◌*◌, ◌<◌, ◌≤◌, ◌++◌, length, get_or, drop};
ghost use Rattle.terms.specs.Node.{Expr};
ghost use Rattle.search.specs.Next.{Goal, Book};
ghost use Rattle.format.specs.Reading.{body_length, record_at, book_verdict, Askable};
ghost use Rattle.format.specs.Format.{encode_goal};
ghost use Rattle.format.specs.Decode.{book_of, goal_of};
ghost use Rattle.format.specs.Words.{word_of, goal_words, book_heads, word_bytes, words_bytes};
ghost use Rattle.storage.specs.Storage.{Written, Loaded, Stored, FormulaAt, Writable, NodeAt};

use records::record::{next_at, number_at};
use words::arity;

// The word of the node's record at a place, and where the record behind it starts. One test tells both, so that the next place need not wait for this kind.
fn node_at(bytes: &[u8], at: usize) -> (u32, usize)
    requires { NodeAt bytes.now at }
    ensures word { result.0 ≡ word_of (record_at bytes.now at (get_or bytes.now at 0)) }
    ensures past { result.1 ≡ at + 1 + body_length (get_or bytes.now at 0) }
{
    let kind = bytes[at];
    if kind <= 2 {
        return (
            u32::from_be_bytes([kind, 0, bytes[at + 1], bytes[at + 2]]),
            at + 3,
        );
    }
    (
        u32::from_be_bytes([kind, bytes[at + 3], bytes[at + 1], bytes[at + 2]]),
        at + 4,
    )
}

// The word of the node's record at a place: its kind, its arity and its number, which are its bytes in another order.
fn word_at(bytes: &[u8], at: usize) -> u32
    requires { NodeAt bytes.now at }
    ensures { result ≡ word_of (record_at bytes.now at (get_or bytes.now at 0)) }
{
    let kind = bytes[at];
    let arity = if kind <= 2 { 0 } else { bytes[at + 3] };
    u32::from_be_bytes([kind, arity, bytes[at + 1], bytes[at + 2]])
}

// How many formulas a good query has.
pub fn count_formulas(query: &[u8]) -> usize
    requires { Askable query.now }
    ensures { result ≡ length (goal_of query.now) }
{
    usize::from(number_at(query, 1))
}

// Writes the words of a good query, and answers how many they are.
pub fn load_goal(query: &[u8], words: &mut [u32]) -> usize
    requires askable { Askable query.now }
    requires in_bounds { 4096 ≤ length words.old }
    ensures { Written (goal_words (goal_of query.now)) words.old words.new result }
{
    let mut n = 0;
    let mut at = 3;
    while at < query.len() {
        let (word, past) = node_at(query, at);
        words[n] = word;
        at = past;
        n += 1;
    }
    n
}

// Writes the words of a good book, clause by clause; where each clause's words start, with the end of the last at the
// end; and how many formulas each body has. Answers how many clauses they are. A node has three bytes at least.
pub fn load_book(book: &[u8], words: &mut [u32], starts: &mut [u16], bodies: &mut [u16]) -> usize
    requires book_value { (book_verdict book.now).code ≡ 0 }
    requires book_len_bound { (length book.now ≤ 3 * length words.old + 2) × (513 ≤ length starts.old) × (512 ≤ length bodies.old) }
    ensures { Loaded (book_of book.now) words.old words.new starts.old starts.new bodies.old bodies.new result }
{
    let mut n = 0;
    let mut k = 0;
    let mut at = 0;
    while book[at] < 7 {
        let past = next_at(book, at);
        if book[at] <= 4 {
            words[n] = word_at(book, at);
            n += 1;
        } else {
            starts[k] = n as u16;
            bodies[k] = u16::from(book[at + 1]);
            k += 1;
        }
        at = past;
    }
    starts[k] = n as u16;
    k
}

// Where the formula that starts at a word ends: where no term of it is owed any more.
pub fn formula_end(words: &[u32], from: usize) -> usize
    requires { (f : Expr) × FormulaAt words.now from f }
    ensures { (f : Expr) → FormulaAt words.now from f → result ≡ from + length f }
{
    let mut terms = 1;
    let mut end = from;
    while 0 < terms {
        terms = terms - 1 + arity(words[end]);
        end += 1;
    }
    end
}

// Writes where each clause's head ends.
pub fn place_heads(words: &[u32], starts: &[u16], clauses: usize, heads: &mut [u16])
    requires stored { (b : Book) × Stored b words.now starts.now clauses }
    requires clauses_in_bounds { clauses ≤ length heads.old }
    ensures { (b : Book) → Stored b words.now starts.now clauses → heads.new ≡ book_heads 0 b ++ drop clauses heads.old }
{
    for k in 0..clauses {
        heads[k] = formula_end(words, usize::from(starts[k])) as u16;
    }
}

// Words from here on are those of compound terms and formulas, which have an arity.
const FIRST_WITH_ARITY: u32 = 0x300_0000;

// The record of the node that a word stands for.
fn write_node(word: u32, area: &mut [u8]) -> usize
    requires { 4 ≤ length area.old }
    ensures { Written (word_bytes word) area.old area.new result }
{
    let [kind, arity, high, low] = word.to_be_bytes();
    area[0] = kind;
    area[1] = high;
    area[2] = low;
    if word < FIRST_WITH_ARITY {
        return 3;
    }
    area[3] = arity;
    4
}

// The records of words, each lent the rest of the area behind the one before it.
fn write_words(words: &[u32], area: &mut [u8]) -> usize
    requires { (length words.now ≤ 4096) × (4 * length words.now ≤ length area.old) }
    ensures { Written (words_bytes words.now) area.old area.new result }
{
    let mut written = 0;
    for word in words {
        written += write_node(*word, &mut area[written..]);
    }
    written
}

// Writes the image of the goal that words hold, and answers how many bytes it is. "Each formula is written from the
// byte where the one before it ended", as its words stand: so where one ends need not be found.
pub fn write_goal(words: &[u32], formulas: usize, area: &mut [u8]) -> usize
    requires writable { (g : Goal) × Writable words.now formulas g }
    requires in_bounds { 16387 ≤ length area.old }
    ensures { (g : Goal) → Writable words.now formulas g → Written (encode_goal g) area.old area.new result }
{
    let [high, low] = (formulas as u16).to_be_bytes();
    area[0] = 6;
    area[1] = high;
    area[2] = low;
    3 + write_words(words, &mut area[3..])
}
