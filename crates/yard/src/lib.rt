// The calls for C: include/yard.h declares them, with a comment for each, and `number_calls`, `curve_calls`, `sheet_calls` and `parts_calls` make them.
// A call returns how many there are of what it answers, or, where it refuses, minus the refusal's number and 32 times its place.
// A lent number area holds the answer from its start and zeros behind it; after a refusal it is all zero. The state of a sheet by parts is an
// area that stays as it is where a call refuses.
#![tactic(auto)]

ghost use Rattle.pair.specs.Pairs.{pair};
ghost use Rattle.number_calls.specs.Promise.{RootCall};
ghost use Rattle.curve_calls.specs.Promise.{RecogniseCall, LengthCall, InflectionCall, OffsetCall, BuildCall, JoinCall};
ghost use Rattle.parts_calls.specs.Promise.{StartCall, FeedCall, EndCall, AskCall};
ghost use Rattle.sheet_calls.specs.Promise.{CheckCall, ReadCall, FindCall, StartForCall, EraseCall, AppendCall, ReportCall};

#[unsafe(no_mangle)]
pub extern "C" fn yard_recognise(p: &[i64], out: &mut [i64]) -> i64
    ensures { RecogniseCall p.now out.old out.new result }
{
    curve_calls::recognise(p, out)
}

#[unsafe(no_mangle)]
pub extern "C" fn yard_length(p: &[i64], out: &mut [i64]) -> i64
    ensures { LengthCall p.now out.old out.new result }
{
    curve_calls::length(p, out)
}

#[unsafe(no_mangle)]
pub extern "C" fn yard_inflections(p: &[i64], out: &mut [i64]) -> i64
    ensures { InflectionCall p.now out.old out.new result }
{
    curve_calls::inflections(p, out)
}

#[unsafe(no_mangle)]
pub extern "C" fn yard_offset(p: &[i64], h: i64, out: &mut [i64]) -> i64
    ensures { OffsetCall p.now h out.old out.new result }
{
    curve_calls::offset(p, h, out)
}

#[unsafe(no_mangle)]
pub extern "C" fn yard_build(x: i64, y: i64, w: &[i64], out: &mut [i64]) -> i64
    ensures { BuildCall (pair x y) w.now out.old out.new result }
{
    curve_calls::build(x, y, w, out)
}

#[unsafe(no_mangle)]
pub extern "C" fn yard_joins(
    ax: i64,
    ay: i64,
    zx: i64,
    zy: i64,
    tx: i64,
    ty: i64,
    out: &mut [i64],
) -> i64
    ensures { JoinCall (pair ax ay) (pair zx zy) (pair tx ty) out.old out.new result }
{
    curve_calls::joins(ax, ay, zx, zy, tx, ty, out)
}

#[unsafe(no_mangle)]
pub extern "C" fn yard_check(s: &[u8]) -> i64
    ensures { CheckCall s.now result }
{
    sheet_calls::check(s)
}

#[unsafe(no_mangle)]
pub extern "C" fn yard_read(s: &[u8], mission: u16, number: u64, out: &mut [i64]) -> i64
    ensures { ReadCall s.now mission number out.old out.new result }
{
    sheet_calls::read(s, mission, number, out)
}

#[unsafe(no_mangle)]
pub extern "C" fn yard_find(s: &[u8], mission: u16, number: u64, out: &mut [i64]) -> i64
    ensures { FindCall s.now mission number out.old out.new result }
{
    sheet_calls::find(s, mission, number, out)
}

#[unsafe(no_mangle)]
pub extern "C" fn yard_start(s: &mut [u8], mission: u16) -> i64
    ensures { StartForCall s.old mission s.new result }
{
    sheet_calls::start(s, mission)
}

#[unsafe(no_mangle)]
pub extern "C" fn yard_erase(s: &mut [u8]) -> i64
    ensures { EraseCall s.old s.new result }
{
    sheet_calls::erase(s)
}

#[unsafe(no_mangle)]
pub extern "C" fn yard_append(s: &mut [u8], p: &[i64]) -> i64
    ensures { AppendCall s.old p.now s.new result }
{
    sheet_calls::append(s, p)
}

#[unsafe(no_mangle)]
pub extern "C" fn yard_report(s: &[u8], text: &mut [u8]) -> i64
    ensures { ReportCall s.now text.old text.new result }
{
    sheet_calls::report(s, text)
}

#[unsafe(no_mangle)]
pub extern "C" fn yard_root(n: u64, out: &mut [i64]) -> i64
    ensures { RootCall n out.old out.new result }
{
    number_calls::root(n, out)
}

#[unsafe(no_mangle)]
pub extern "C" fn yard_parts_start(state: &mut [i64]) -> i64
    ensures { StartCall state.old state.new result }
{
    parts_calls::start(state)
}

#[unsafe(no_mangle)]
pub extern "C" fn yard_parts_feed(state: &mut [i64], part: &[u8]) -> i64
    ensures { FeedCall state.old part.now state.new result }
{
    parts_calls::feed(state, part)
}

#[unsafe(no_mangle)]
pub extern "C" fn yard_parts_end(state: &mut [i64]) -> i64
    ensures { EndCall state.old state.new result }
{
    parts_calls::end(state)
}

#[unsafe(no_mangle)]
pub extern "C" fn yard_parts_ask(state: &[i64]) -> i64
    ensures { AskCall state.now result }
{
    parts_calls::ask(state)
}
