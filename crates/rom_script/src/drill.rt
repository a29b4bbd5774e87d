//! The scripts of a drill: lines made of numbers that follow from its start, the same at each run.
ghost use Rattle.std.specs.Prelude.{◌≡◌, ◌+◌, ◌*◌, ◌^◌, ◌<◌, ◌≤◌, [], ◌∷◌, ◌++◌, All, length, map, IfOk, OnOk};
ghost use Rattle.rom_model.specs.Singles.{call_of};
ghost use Rattle.rom_model.specs.declared.line.Step.TheVariants.{Ask, Update};
ghost use Rattle.rom_script.specs.Drill as numbered;

use rom_heap::Trio;
use rom_lines::Script;
use rom_model::{Args, Query, Single, put_single_words};
use std::alloc::{AllocError, Global};

/// How many values a number of a drill may have.
const MODULUS: u64 = 1 << 31;

/// The number before those of a caller's items.
pub fn first(start: u64, caller: u64) -> u64
    ensures number { result ≡ numbered.first start caller }
    ensures within { result < 2 ^ 31 }
{
    ((u128::from(start) + u128::from(caller)) % u128::from(MODULUS)) as u64
}

/// The number after this one.
pub fn next(x: u64) -> u64
    requires { x < 2 ^ 31 }
    ensures number { result ≡ numbered.next x }
    ensures within { result < 2 ^ 31 }
{
    (x * 1_103_515_245 + 12_345) % MODULUS
}

/// Moves less than 100 from one key of all callers' to another.
fn move_call(callers: u64, q: u64) -> Single
    requires callers { (1 ≤ callers) × (callers ≤ 16) }
    ensures { call_of result ≡ numbered.move_call callers q }
{
    let keys = 4 * callers;
    Single::Move(q % keys, q / 64 % keys, q % 100)
}

/// Puts one of the caller's own eight numbers into the set, or takes it out.
fn set_call(caller: u64, q: u64) -> Single
    requires caller { (1 ≤ caller) × (caller ≤ 16) }
    ensures { call_of result ≡ numbered.set_call caller q }
{
    let key = 8 * (caller - 1) + q % 8;
    if q / 8 % 2 == 0 {
        Single::Add(key)
    } else {
        Single::Rem(key)
    }
}

/// One of five queries, on any caller's keys and numbers.
fn query(callers: u64, q: u64) -> Query
    requires callers { (1 ≤ callers) × (callers ≤ 16) }
    ensures { result ≡ numbered.query callers q }
{
    match q % 5 {
        0 => Query::Get(q / 5 % (4 * callers)),
        1 => Query::Has(q / 5 % (8 * callers)),
        2 => Query::Peek,
        3 => Query::Len,
        _ => Query::Total,
    }
}

/// Writes the line of an update. The words of its call go through `room`, whatever stood there: a new list for
/// each line would be 328 bytes that are cleared.
fn push_update(script: &mut Script<Trio>, update: Single, room: &mut Args) -> Result<(), AllocError>
    ensures { OnOk result (script.new.items
        ≡ script.old.items ++ Update (call_of update) ∷ []) }
{
    put_single_words(update, room);
    script.push_words(room)
}

/// Writes the lines of the item that a number makes. There are two at most.
fn push_item(
    script: &mut Script<Trio>,
    callers: u64,
    caller: u64,
    x: u64,
    room: &mut Args,
) -> Result<(), AllocError>
    requires caller { (1 ≤ caller) × (caller ≤ callers) × (callers ≤ 16) }
    ensures lines { OnOk result (script.new.items
        ≡ script.old.items ++ numbered.item callers caller x) }
    ensures few { OnOk result (length script.new.items ≤ length script.old.items + 2) }
{
    let r = x / 65536;
    let q = r / 4;
    match r % 4 {
        0 => {
            push_update(script, Single::Enq(q), room)?;
            push_update(script, Single::Deq, room)
        }
        1 => push_update(script, move_call(callers, q), room),
        2 => push_update(script, set_call(caller, q), room),
        _ => script.push_query(query(callers, q)),
    }
}

/// Writes the line that gives a key 1000.
fn push_key(script: &mut Script<Trio>, key: u64, room: &mut Args) -> Result<(), AllocError>
    ensures { OnOk result (script.new.items ≡ script.old.items ++ numbered.put_line key ∷ []) }
{
    push_update(script, Single::Put(key, 1000), room)
}

/// Writes the lines that give each of the caller's own four keys 1000.
fn push_keys(script: &mut Script<Trio>, caller: u64, room: &mut Args) -> Result<(), AllocError>
    requires caller { (1 ≤ caller) × (caller ≤ 16) }
    ensures lines { OnOk result (script.new.items ≡ script.old.items ++ numbered.put_lines caller) }
    ensures few { OnOk result (length script.new.items ≤ length script.old.items + 4) }
{
    let key = 4 * (caller - 1);
    push_key(script, key, room)?;
    push_key(script, key + 1, room)?;
    push_key(script, key + 2, room)?;
    push_key(script, key + 3, room)?;
    Ok(())
}

/// The script of one of a drill's callers, who are numbered from 1 on: four lines that give the
/// caller's own keys 1000, and so many items of one or two lines. Its memory is taken at once.
pub fn drill_script(
    alloc: Global,
    start: u64,
    caller: u64,
    callers: u64,
    calls: u64,
) -> Result<Script<Trio>, AllocError>
    requires caller { (1 ≤ caller) × (caller ≤ callers) × (callers ≤ 16) }
    requires calls { calls ≤ 10000 }
    // After `Ok` the script is the one that the definition makes of these numbers.
    ensures lines { IfOk result (λ script.
        script.items ≡ numbered.drill_script start callers calls caller) }
    ensures few { IfOk result (λ script. length script.items ≤ 4 + 2 * calls) }
{
    // An item has two lines at most, and no more than the four words of a move.
    let items = calls as usize;
    let mut script = Script::with_capacity(alloc, 4 + 2 * items, 12 + 4 * items)?;
    let mut room = Args::new();
    push_keys(&mut script, caller, &mut room)?;
    let mut x = first(start, caller);
    for _made in 0..calls {
        x = next(x);
        push_item(&mut script, callers, caller, x, &mut room)?;
    }
    Ok(script)
}

/// The scripts of a drill's callers, of so many items each.
pub fn drill_scripts(
    alloc: Global,
    start: u64,
    callers: u64,
    calls: u64,
) -> Result<Vec<Script<Trio>>, AllocError>
    requires callers { callers ≤ 16 }
    requires calls { calls ≤ 10000 }
    // After `Ok` the scripts are those that the definition makes of these numbers, one for each caller.
    ensures lines { IfOk result (λ scripts.
        map (λ v. v.items) scripts.items ≡ numbered.drill_scripts start callers calls) }
    ensures many { IfOk result (λ scripts. length scripts.items ≡ callers) }
    ensures few { IfOk result (λ scripts. All (λ v. length v.items ≤ 4 + 2 * calls) scripts.items) }
{
    let mut scripts = Vec::with_capacity(alloc, callers as usize)?;
    for before in 0..callers {
        scripts.push(drill_script(alloc, start, before + 1, callers, calls)?)?;
    }
    Ok(scripts)
}
