// The records by kind: what each asks for.
ghost use Rattle.std.specs.Prelude.{◌≡◌, ◌+◌, ◌<◌, ◌≤◌, IfOk, IfErr, length};
ghost use Rattle.cardline_script.specs.Reading.{Read, two, make_asked, frame_asked, counted_asked, block_in_asked, block_out_asked, memory_asked, lend_asked, poke_asked, write_frame_asked, write_block_asked, check_asked};

use crate::numbers::{byte, four, three, two};
use crate::{Asked, Calling, Going, Halt, Looking, Making, Sizes, Stop, Wiring};

// The longest block that a record has or wants, and the largest memory that one makes.
const BLOCK: u32 = 4096;

const MEMORY: u32 = 524288;

// Each of these is a test that a record has to pass, and why it is not carried out where it does not.

fn complete(n: usize, script: &[u8]) -> Result<(), Halt>
    ensures whole { IfOk result (λ _. n ≤ length script.now) }
    ensures cut { IfErr result (λ halt. (length script.now < n) × (halt ≡ Halt.More)) }
{
    if script.len() < n {
        return Err(Halt::More);
    }
    Ok(())
}

fn within(most: u32, n: u32) -> Result<(), Halt>
    ensures right { IfOk result (λ _. n ≤ most) }
    ensures too_big { IfErr result (λ halt. (most < n) × (halt ≡ Halt.Stop Stop.TooBig)) }
{
    if most < n {
        return Err(Halt::Stop(Stop::TooBig));
    }
    Ok(())
}

#[tactic(auto, unfolding(crate::specs::Reading::make_asked, crate::specs::Reading::making_asked))]
pub fn make_asked(script: &[u8]) -> Result<Asked, Halt>
    ensures { result ≡ make_asked script.now }
{
    complete(4, script)?;
    let memory = three(script, 1);
    within(MEMORY, memory)?;
    let fill = byte(script, 4);
    let map = byte(script, 5);
    let end = map as usize + 43;
    complete(end, script)?;
    let password = byte(script, map as usize + 42);
    complete(end + password as usize, script)?;
    Ok(Asked::Make(Making {
        memory,
        fill,
        map,
        password,
    }))
}

// A frame, with the card's select line low (`selected`) or high.
#[tactic(auto, unfolding(crate::specs::Reading::frame_asked))]
pub fn frame_asked(script: &[u8], selected: bool) -> Result<Asked, Halt>
    ensures { result ≡ frame_asked script.now selected }
{
    complete(2, script)?;
    let length = byte(script, 1);
    complete(length as usize + 2, script)?;
    Ok(Asked::Go(Going::Call(Calling::Frame { length, selected })))
}

// A length of two bytes, where as many bytes are there and so many more.
#[tactic(auto, unfolding(crate::specs::Reading::counted_asked))]
fn counted(script: &[u8], more: u8) -> Result<u16, Halt>
    ensures whole { IfOk result (λ n. (n ≡ two script.now 1) × (3 ≤ length script.now) × (n ≤ 4096) × (n + 3 + more ≤ length script.now)) }
    ensures stops { IfErr result (λ halt. (then : Read) → counted_asked script.now more then ≡ Err halt) }
{
    complete(3, script)?;
    let n = two(script, 1);
    within(BLOCK, u32::from(n))?;
    complete(n as usize + 3 + more as usize, script)?;
    Ok(n)
}

#[tactic(auto, unfolding(crate::specs::Reading::counted_asked))]
pub fn block_in_asked(script: &[u8]) -> Result<Asked, Halt>
    ensures { result ≡ block_in_asked script.now }
{
    let n = counted(script, 0)?;
    Ok(Asked::Go(Going::Call(Calling::BlockIn(n))))
}

#[tactic(auto, unfolding(crate::specs::Reading::block_out_asked))]
pub fn block_out_asked(script: &[u8]) -> Result<Asked, Halt>
    ensures { result ≡ block_out_asked script.now }
{
    complete(3, script)?;
    let n = two(script, 1);
    within(BLOCK, u32::from(n))?;
    Ok(Asked::Go(Going::Call(Calling::BlockOut(n))))
}

#[tactic(auto, unfolding(crate::specs::Reading::memory_asked))]
pub fn memory_asked(script: &[u8]) -> Result<Asked, Halt>
    ensures { result ≡ memory_asked script.now }
{
    complete(6, script)?;
    let from = three(script, 1);
    let length = two(script, 4);
    within(BLOCK, u32::from(length))?;
    Ok(Asked::Go(Going::Look(Looking::Memory { from, length })))
}

#[tactic(auto, unfolding(crate::specs::Reading::lend_asked))]
pub fn lend_asked(script: &[u8]) -> Result<Asked, Halt>
    ensures { result ≡ lend_asked script.now }
{
    complete(5, script)?;
    let sizes = Sizes {
        memory: three(script, 1),
        map: byte(script, 4),
    };
    Ok(Asked::Go(Going::Look(Looking::Lend(sizes))))
}

#[tactic(auto, unfolding(crate::specs::Reading::poke_asked))]
pub fn poke_asked(script: &[u8]) -> Result<Asked, Halt>
    ensures { result ≡ poke_asked script.now }
{
    complete(3, script)?;
    let entry = byte(script, 1);
    let value = byte(script, 2);
    Ok(Asked::Go(Going::Look(Looking::Poke { entry, value })))
}

#[tactic(auto, unfolding(crate::specs::Reading::write_frame_asked))]
pub fn write_frame_asked(script: &[u8]) -> Result<Asked, Halt>
    ensures { result ≡ write_frame_asked script.now }
{
    complete(7, script)?;
    Ok(Asked::Go(Going::Wire(Wiring::Frame {
        index: byte(script, 1),
        argument: four(script, 2),
        room: byte(script, 6),
    })))
}

#[tactic(auto, unfolding(crate::specs::Reading::write_block_asked, crate::specs::Reading::counted_asked))]
pub fn write_block_asked(script: &[u8]) -> Result<Asked, Halt>
    ensures { result ≡ write_block_asked script.now }
{
    let length = counted(script, 2)?;
    let room = two(script, length as usize + 3);
    within(BLOCK, u32::from(room))?;
    Ok(Asked::Go(Going::Wire(Wiring::Block { length, room })))
}

#[tactic(auto, unfolding(crate::specs::Reading::counted_asked))]
pub fn check_asked(script: &[u8]) -> Result<Asked, Halt>
    ensures { result ≡ check_asked script.now }
{
    let n = counted(script, 0)?;
    Ok(Asked::Go(Going::Wire(Wiring::Check(n))))
}
