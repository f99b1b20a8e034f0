// The line of a verdict: a word, and its numbers.
ghost use Rattle.std.specs.Prelude.{◌++◌, ◌+◌, ◌*◌, length};
ghost use Rattle.laws.specs.Lists.{concat_map};
ghost use Rattle.buffer.specs.Put.{Put};
ghost use Rattle.lines.specs.Decimal.{spaced};
ghost use Rattle.verdict_lines.specs.Words.{cause_text, verdict_text, verdict_line};

use buffer::Buffer;
use connection::Cause;
use lines::digits::number;
use listing::Verdict;

fn said(out: &mut Buffer<'_>, word: &[u8], ns: &[u64])
    ensures { Put (length word.now + 21 * length ns.now) (word.now ++ concat_map spaced ns.now) out.old out.new }
{
    out.bytes(word);
    for n in ns {
        number(out, *n);
    }
}

fn cause_text(out: &mut Buffer<'_>, cause: Cause)
    ensures { Put 89 (cause_text cause) out.old out.new }
{
    match cause {
        Cause::RideCount(n) => said(out, b"rides", &[u64::from(n)]),
        Cause::NoCall(r, s) => said(out, b"no-call", &[u64::from(r), u64::from(s)]),
        Cause::BoardingBarred(r) => said(out, b"boarding", &[u64::from(r)]),
        Cause::AlightingBarred(r) => said(out, b"alighting", &[u64::from(r)]),
        Cause::NotLater(r) => said(out, b"not-later", &[u64::from(r)]),
        Cause::NotOrigin => out.bytes(b"origin"),
        Cause::NotTarget => out.bytes(b"target"),
        Cause::TooEarly(w, d) => said(out, b"walk", &[u64::from(w), u64::from(d)]),
        Cause::TooManyChanges(n) => said(out, b"changes", &[u64::from(n)]),
        Cause::SameRun(c) => said(out, b"same-run", &[u64::from(c)]),
        Cause::Forbidden(c, n) => said(out, b"forbidden", &[u64::from(c), n as u64]),
        Cause::NoChange(c) => said(out, b"no-change", &[u64::from(c)]),
        Cause::TooShort(c, n, a, d) => said(
            out,
            b"short",
            &[u64::from(c), u64::from(n), u64::from(a), u64::from(d)],
        ),
    }
}

fn verdict_text(out: &mut Buffer<'_>, verdict: Verdict)
    ensures { Put 100 (verdict_text verdict) out.old out.new }
{
    match verdict {
        Verdict::NotFinished => out.bytes(b"unfinished"),
        Verdict::Late => out.bytes(b"late"),
        Verdict::Listed(j) => said(out, b"listed", &[j as u64]),
        Verdict::AsGood(j) => said(out, b"equal", &[j as u64]),
        Verdict::Beaten(j) => said(out, b"beaten", &[j as u64]),
        Verdict::Uncovered => out.bytes(b"uncovered"),
        Verdict::Impossible(cause) => {
            out.bytes(b"impossible ");
            cause_text(out, cause)
        }
    }
}

pub fn verdict_line(out: &mut Buffer<'_>, verdict: Verdict)
    ensures { Put 101 (verdict_line verdict) out.old out.new }
{
    verdict_text(out, verdict);
    out.byte(b'\n');
}
