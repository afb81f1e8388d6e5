ghost use Rattle.std.specs.Prelude.{◌≡◌, ◌==◌};
ghost use Rattle.std.specs.List.{list_any, list_all};
ghost use Rattle.trb.specs.Block.{kind, cycle, is_chained};
ghost use Rattle.trb.specs.Descriptor.{fault_in, fault_of, is_bad_descriptor, is_left_out, is_bad_command, is_bad_transfer, is_transfer_left_out, is_command_left_out, is_no_command, has_left_out_field, has_other_target, has_other_type, has_left_out_type, is_transfer_arrangement, may_begin, carry_on, ends_status, has_setup_data, is_badly_formed, is_chain};

use crate::bits::{bits, is_set};
use crate::block::Block;
use crate::fault::Fault;
use crate::kind::BlockKind;
use crate::profile::Profile;
use crate::ring_kind::RingKind;

/// The most blocks of a descriptor: a limit of this project.
pub const MAX_BLOCKS: usize = 4096;

/// What is wrong with these blocks as a descriptor (TD) of such a ring, by the basic profile.
#[inline(always)]
pub fn descriptor_fault(kind: RingKind, blocks: &[Block]) -> Option<Fault>
    ensures { result ≡ fault_of kind blocks.now }
{
    descriptor_fault_in(Profile::Basic, kind, blocks)
}

/// What is wrong with these blocks as a descriptor (TD) of such a ring: xHCI 3.2.8 to 3.2.11, 4.11.2, 6.4.1, 6.4.3.
/// A descriptor is declared with every Cycle bit 0. Where no form fits and something is outside the profile too,
/// `BadDescriptor` comes first.
#[inline(always)]
pub fn descriptor_fault_in(profile: Profile, kind: RingKind, blocks: &[Block]) -> Option<Fault>
    ensures { result ≡ fault_in profile kind blocks.now }
{
    // most descriptors have one block: where the compiler sees that, no loop is left
    if let [block] = blocks {
        return first_fault(profile, kind, &[*block]);
    }
    first_fault(profile, kind, blocks)
}

/// What is wrong with these blocks first.
#[inline(always)]
fn first_fault(profile: Profile, kind: RingKind, blocks: &[Block]) -> Option<Fault>
    ensures { result ≡ fault_in profile kind blocks.now }
{
    if is_bad_descriptor(profile, kind, blocks) {
        Some(Fault::BadDescriptor)
    } else if is_left_out(profile, kind, blocks) {
        Some(Fault::NotInProfile)
    } else {
        None
    }
}

fn is_bad_descriptor(profile: Profile, kind: RingKind, blocks: &[Block]) -> bool
    ensures { result ≡ is_bad_descriptor profile kind blocks.now }
{
    match kind {
        RingKind::Cmd => is_bad_command(blocks),
        RingKind::Xfer => is_bad_transfer(profile, blocks),
        RingKind::Evt => true,
    }
}

#[inline(always)]
fn is_left_out(profile: Profile, kind: RingKind, blocks: &[Block]) -> bool
    ensures { result ≡ is_left_out profile kind blocks.now }
{
    match kind {
        RingKind::Cmd => has_command_left_out(blocks),
        RingKind::Xfer => is_transfer_left_out(profile, blocks),
        RingKind::Evt => false,
    }
}

// ---- descriptors of a command ring

fn is_bad_command(blocks: &[Block]) -> bool
    ensures { result ≡ is_bad_command blocks.now }
{
    is_badly_formed(blocks) || blocks.len() != 1 || has_no_command(blocks)
}

fn has_command_left_out(blocks: &[Block]) -> bool
    ensures { result ≡ list_any is_command_left_out blocks.now }
{
    blocks.iter().any(|b| is_command_left_out(*b))
}

fn has_no_command(blocks: &[Block]) -> bool
    ensures { result ≡ list_any is_no_command blocks.now }
{
    blocks.iter().any(|b| is_no_command(*b))
}

/// Whether the block is a command that is not in the profile, by its type or by one of its fields.
pub fn is_command_left_out(block: Block) -> bool
    ensures { result ≡ is_command_left_out block }
{
    block.kind().is_left_out_command() || has_left_out_field(block)
}

/// Whether the block is no command at all, by its type.
pub fn is_no_command(block: Block) -> bool
    ensures { result ≡ is_no_command block }
{
    let kind = block.kind();
    !kind.is_command() && !kind.is_left_out_command()
}

/// Set TR Dequeue of a stream (SCT above 0); Reset Endpoint that keeps the transfer state (TSP).
fn has_left_out_field(block: Block) -> bool
    ensures { result ≡ has_left_out_field (kind block) block }
{
    match block.kind() {
        BlockKind::SetTrDequeue => bits(block.w[0], 1, 3) != 0,
        BlockKind::ResetEndpoint => is_set(block.w[3], 9),
        _ => false,
    }
}

// ---- descriptors of a transfer ring

fn is_bad_transfer(profile: Profile, blocks: &[Block]) -> bool
    ensures { result ≡ is_bad_transfer profile blocks.now }
{
    is_badly_formed(blocks)
        || has_other_type(blocks)
        || !is_transfer_arrangement(blocks) && !has_left_out_type(profile, blocks)
}

fn is_transfer_left_out(profile: Profile, blocks: &[Block]) -> bool
    ensures { result ≡ is_transfer_left_out profile blocks.now }
{
    has_left_out_type(profile, blocks) || any_has_other_target(blocks)
}

/// A block whose type is no transfer type, as a Link's or a command's.
fn has_other_type(blocks: &[Block]) -> bool
    ensures { result ≡ has_other_type blocks.now }
{
    blocks.iter().any(|b| !b.kind().is_transfer())
}

#[inline(always)]
fn has_left_out_type(profile: Profile, blocks: &[Block]) -> bool
    ensures { result ≡ has_left_out_type profile blocks.now }
{
    blocks
        .iter()
        .any(|b| b.kind().is_left_out_transfer(profile))
}

fn any_has_other_target(blocks: &[Block]) -> bool
    ensures { result ≡ list_any has_other_target blocks.now }
{
    blocks.iter().any(|b| has_other_target(*b))
}

/// An interrupter target (word 2 bits 31:22) other than 0.
fn has_other_target(block: Block) -> bool
    ensures { result ≡ has_other_target block }
{
    bits(block.w[2], 22, 10) != 0
}

/// A Setup Stage or a No Op alone; a Status Stage; a Normal block, a Data Stage or an Isoch, and those with which it goes on.
fn is_transfer_arrangement(blocks: &[Block]) -> bool
    ensures { result ≡ is_transfer_arrangement blocks.now }
{
    match blocks {
        [] => false,
        [first, rest @ ..] => may_begin(*first, rest),
    }
}

fn may_begin(first: Block, rest: &[Block]) -> bool
    ensures { result ≡ may_begin (kind first) first rest.now }
{
    match first.kind() {
        BlockKind::Normal | BlockKind::DataStage | BlockKind::Isoch => carry_on(rest),
        BlockKind::SetupStage => has_setup_data(first) && rest.is_empty(),
        BlockKind::StatusStage => ends_status(rest),
        BlockKind::NoOp => rest.is_empty(),
        _ => false,
    }
}

/// Each goes on with the descriptor (xHCI 4.11.5.2).
fn carry_on(blocks: &[Block]) -> bool
    ensures { result ≡ carry_on blocks.now }
{
    blocks.iter().all(|b| b.kind().carries_on())
}

/// Behind a Status Stage: nothing, or one Event Data block (xHCI 4.11.2.2).
fn ends_status(blocks: &[Block]) -> bool
    ensures { result ≡ ends_status blocks.now }
{
    match blocks {
        [] => true,
        [block] => block.kind().is_event_data(),
        _ => false,
    }
}

/// Eight bytes of setup data in the block itself (IDT), and no reserved transfer type (TRT): xHCI 6.4.1.2.1.
fn has_setup_data(block: Block) -> bool
    ensures { result ≡ has_setup_data block }
{
    bits(block.w[2], 0, 17) == 8 && is_set(block.w[3], 6) && bits(block.w[3], 16, 2) != 1
}

// ---- what both rings ask

/// No block or too many, a Cycle bit of 1, or a wrong Chain bit.
fn is_badly_formed(blocks: &[Block]) -> bool
    ensures { result ≡ is_badly_formed blocks.now }
{
    blocks.len() > MAX_BLOCKS || any_has_cycle(blocks) || !is_chain(blocks)
}

fn any_has_cycle(blocks: &[Block]) -> bool
    ensures { result ≡ list_any (λ b. cycle b == 1) blocks.now }
{
    blocks.iter().any(|b| b.cycle())
}

/// Whether the Chain bit is 1 in all blocks but the last, and 0 there.
fn is_chain(blocks: &[Block]) -> bool
    ensures { result ≡ is_chain blocks.now }
{
    match blocks {
        [] => false,
        [front @ .., last] => are_chained(front) && !last.chain(),
    }
}

fn are_chained(blocks: &[Block]) -> bool
    ensures { result ≡ list_all is_chained blocks.now }
{
    blocks.iter().all(|b| b.chain())
}
