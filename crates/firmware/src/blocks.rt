// Blocks at a card, for C. What is lent is judged on the numbers as they are, and then the record is
// taken in. A block out changes the link alone, a block in the lock too. The mode is told with the link,
// and nothing else.
ghost use Rattle.firmware.specs.Numbers.{number_told};
ghost use Rattle.std.specs.Prelude.{◌++◌, ◌≡◌, length};
ghost use Rattle.card_blocks.specs.BlockIn.{block_judged};
ghost use Rattle.card_blocks.specs.BlockOut.{out_judged};
ghost use Rattle.card.specs.Step.{lent_after, output_of};
ghost use Rattle.card.specs.declared.Call.TheVariants.{BlockIn, BlockOut};
ghost use Rattle.card_record.specs.Sending.{sent_bytes};
ghost use Rattle.crossing.specs.Record.{card_of, link_numbers, mode_numbers, lock_numbers};
ghost use Rattle.store.specs.Lent.{lent_of, seen};
ghost use Rattle.firmware.specs.Answers.{numbers_after, fronted, wrote_of};

use crate::answers::{leaves_record, number_told, send_byte, wrote};
use card_blocks::Lending;
use crossing::{card_of, groups_of, tell_link, tell_link_and_lock};

// A block in: 12, 15, 16, 17, 18, 19 or 20. Only this call may change the password. The data response
// that follows it in SPI goes to `response`, and how many bytes that is to `sent`.
#[unsafe(no_mangle)]
pub extern "C" fn mmc_parts_block_in(
    numbers: &mut [u32; 13],
    cid: &[u8; 16],
    csd: &[u8; 16],
    password: &mut [u8; 16],
    block: &[u8],
    memory: &mut [u8],
    map: &mut [u8],
    response: &mut [u8; 1],
    sent: &mut usize,
) -> u8
    ensures answer { let card = card_of numbers.old cid.now csd.now password.old in
        let lent = lent_of memory.old map.old in
        let stepped = (block_judged card block.now (seen lent)).stepped in
        result ≡ number_told stepped.reply.outcome }
    ensures numbers { let card = card_of numbers.old cid.now csd.now password.old in
        let lent = lent_of memory.old map.old in
        let stepped = (block_judged card block.now (seen lent)).stepped in
        let next = stepped.card in
        (numbers.new ≡ numbers_after result (link_numbers next.link ++ mode_numbers next.mode ++ lock_numbers next.lock) numbers.old)
        × (card_of numbers.new cid.now csd.now password.new ≡ next) }
    ensures password { let card = card_of numbers.old cid.now csd.now password.old in
        let lent = lent_of memory.old map.old in
        let stepped = (block_judged card block.now (seen lent)).stepped in
        let next = stepped.card in
        password.new ≡ next.lock.password }
    ensures lent { let card = card_of numbers.old cid.now csd.now password.old in
        let lent = lent_of memory.old map.old in
        lent_of memory.new map.new ≡ lent_after card BlockIn block.now lent }
    ensures sent { let card = card_of numbers.old cid.now csd.now password.old in
        let lent = lent_of memory.old map.old in
        let stepped = (block_judged card block.now (seen lent)).stepped in
        let bytes = sent_bytes card.registers stepped.reply.sent in
        (response.new ≡ fronted bytes response.old) × (sent.new ≡ length bytes) }
{
    *sent = 0;
    let lending = store::lent_check(memory.len(), map, groups_of(*numbers) as usize);
    match lending {
        Ok(()) => {}
        Err(refusal) => return base::number(refusal),
    }
    let card = card_of(*numbers, *cid, *csd, *password);
    let stepped = card_blocks::taken_in(card, block, &mut Lending { memory, map });
    // Each part has a name, since fields read through `stepped` where they are told cost 222 bytes of code.
    let next = stepped.card;
    let reply = stepped.reply;
    let outcome = reply.outcome;
    let responded = reply.sent;
    *sent = send_byte(responded, response);
    let number = number_told(outcome);
    if leaves_record(number) {
        return number;
    }
    let link = next.link;
    let mode = next.mode;
    let lock = next.lock;
    let stored = lock.password;
    tell_link_and_lock(link, mode, lock, numbers);
    *password = stored;
    number
}

// A block out: 12, 15, 6, 18, 21. How many bytes at the front of `out` are the block goes to
// `written`.
#[unsafe(no_mangle)]
pub extern "C" fn mmc_parts_block_out(
    numbers: &mut [u32; 13],
    cid: &[u8; 16],
    csd: &[u8; 16],
    password: &[u8; 16],
    memory: &[u8],
    map: &[u8],
    out: &mut [u8],
    written: &mut usize,
) -> u8
    ensures answer { let card = card_of numbers.old cid.now csd.now password.now in
        let lent = lent_of memory.now map.now in
        let stepped = (out_judged card (seen lent) (length out.old)).stepped in
        result ≡ number_told stepped.reply.outcome }
    ensures numbers { let card = card_of numbers.old cid.now csd.now password.now in
        let lent = lent_of memory.now map.now in
        let stepped = (out_judged card (seen lent) (length out.old)).stepped in
        (numbers.new ≡ numbers_after result (link_numbers stepped.card.link ++ mode_numbers stepped.card.mode) numbers.old)
        × (card_of numbers.new cid.now csd.now password.now ≡ stepped.card) }
    ensures output { let card = card_of numbers.old cid.now csd.now password.now in
        let lent = lent_of memory.now map.now in
        out.new ≡ output_of card BlockOut lent out.old }
    ensures written { let card = card_of numbers.old cid.now csd.now password.now in
        let lent = lent_of memory.now map.now in
        let stepped = (out_judged card (seen lent) (length out.old)).stepped in
        written.new ≡ wrote_of stepped.reply.outcome }
{
    *written = 0;
    let lending = store::lent_check(memory.len(), map, groups_of(*numbers) as usize);
    match lending {
        Ok(()) => {}
        Err(refusal) => return base::number(refusal),
    }
    let card = card_of(*numbers, *cid, *csd, *password);
    let stepped = card_blocks::given_out(card, memory, map, out);
    *written = wrote(stepped.reply.outcome);
    let number = number_told(stepped.reply.outcome);
    if leaves_record(number) {
        return number;
    }
    tell_link(stepped.card.link, stepped.card.mode, numbers);
    number
}
