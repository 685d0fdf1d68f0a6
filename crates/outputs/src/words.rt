// Letters and labelled numbers in lent memory: the head and the refusal line. Memory and place go along as two parameters: of a value that lends
// both, each clause would also have to say that it still lends the same memory.
ghost use Rattle.std.specs.Prelude.{◌+◌, ◌≤◌, length};
ghost use Rattle.buffers.specs.Put.{Put};
ghost use Rattle.refusals.specs.Refusals.{why_of};
ghost use Rattle.outputs.specs.Text.{labelled, pair_line, refused_line, head_line};

use crate::number::put_number;
use refusals::Refusal;

// Letters stored from a place on; the place after them.
pub fn put_bytes(out: &mut [u8], at: usize, text: &[u8]) -> usize
    requires { at + length text.now ≤ length out.old }
    ensures { Put out.old out.new at text.now result }
{
    let end = at + text.len();
    out[at..end].copy_from_slice(text);
    end
}

// A number behind some letters.
fn put_labelled(out: &mut [u8], at: usize, label: &[u8], n: u32) -> usize
    requires { at + length label.now + 10 ≤ length out.old }
    ensures { Put out.old out.new at (labelled label.now n) result
        × (result ≤ at + length label.now + 10) }
{
    let next = put_bytes(out, at, label);
    put_number(out, next, n)
}

// Two numbers with a space between, behind some letters and before others.
pub fn put_pair(out: &mut [u8], label: &[u8], a: u32, b: u32, end: &[u8]) -> usize
    requires { length label.now + 21 + length end.now ≤ length out.old }
    ensures { Put out.old out.new 0 (pair_line label.now a b end.now) result }
{
    let x = put_labelled(out, 0, label, a);
    let y = put_labelled(out, x, b" ", b);
    put_bytes(out, y, end)
}

// `refused`, number, detail.
pub fn put_refused(out: &mut [u8], why: Refusal) -> usize
    requires { 64 ≤ length out.old }
    ensures { Put out.old out.new 0 (refused_line (why_of why)) result }
{
    put_pair(out, b"refused ", why.number(), why.detail(), b"\n")
}

// `frame N V words W marks M`.
pub fn put_head(out: &mut [u8], n: u32, v: u32, words: u32, marks: u32) -> usize
    requires { 128 ≤ length out.old }
    ensures { Put out.old out.new 0 (head_line n v words marks) result }
{
    let a = put_labelled(out, 0, b"frame ", n);
    let b = put_labelled(out, a, b" ", v);
    let c = put_labelled(out, b, b" words ", words);
    let d = put_labelled(out, c, b" marks ", marks);
    put_bytes(out, d, b"\n")
}
