// The calls on an exercise: reading it, checking its block, relabelling it.
ghost use Rattle.std.specs.Prelude.{◌≡◌};
ghost use Rattle.frames.specs.Reading.{read_exercise};
ghost use Rattle.text_calls.specs.Reading.{ReadingKept};
ghost use Rattle.psvn_calls.specs.Checking.{check_block, CheckKept};
ghost use Rattle.psvn_calls.specs.Relabelling.{relabel_exercise, RelabellingKept};
ghost use Rattle.c_answers.specs.Numbers.{refusal_of, length_of, done_told, length_told};

use c_answers::{Length, refusal_of};

// Reads an exercise from its text; the length is that of its block, which then stands at the front of `out`.
#[unsafe(no_mangle)]
pub extern "C" fn mikjuqan_read_exercise(text: &[u8], out: &mut [u8]) -> Length
    ensures fact { let o = read_exercise text.now out.old
        in (result ≡ length_of o.answer) × (out.new ≡ o.out) }
    ensures reading_kept { ReadingKept (length_told result) out.new }
{
    Length::from(engine::read_exercise(text, out))
}

// 0 where a block is accepted, or the number that it is refused with.
#[unsafe(no_mangle)]
pub extern "C" fn mikjuqan_check_block(block: &[u8]) -> u32
    ensures value { result ≡ refusal_of (check_block block.now) }
    ensures check_kept { CheckKept block.now (done_told result) }
{
    refusal_of(engine::check_block(block))
}

// Relabels a block; the length is that of the relabelled one, which then stands at the front of `out`.
#[unsafe(no_mangle)]
pub extern "C" fn mikjuqan_relabel_block(block: &[u8], out: &mut [u8]) -> Length
    ensures fact { let o = relabel_exercise block.now out.old
        in (result ≡ length_of o.answer) × (out.new ≡ o.out) }
    ensures relabelling_kept { RelabellingKept (length_told result) out.new }
{
    Length::from(engine::relabel_block(block, out))
}
