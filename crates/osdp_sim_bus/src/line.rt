//! What goes over the line.

ghost use Rattle.std.specs.Prelude.{◌≡◌, ◌+◌, ◌≤◌, ◌++◌, [], ◌∷◌, All, OnOk, length, map};
ghost use Rattle.std.specs.List.{flat_map};
ghost use Rattle.std.specs.VecDeque.{deque_capacity, deque_len};
ghost use Rattle.osdp_sim.specs.Line.{bytes_of, handed};
ghost use Rattle.osdp_sim.specs.Steps.{SaysFit};
ghost use Rattle.osdp_sim_bus.specs.Room.{HasPlace, sites_of};
ghost use Rattle.osdp_sim_bus.specs.Steps.{changed_site, hears_run, site_hears, site_is_told, site_says};

use crate::site::ReaderSite;
use osdp_bus::{Bus, EntryNumber};
use osdp_controller::Report;
use osdp_frame::{Burst, FrameView};
use osdp_reader::Handler;
use osdp_sim::Move;
use std::alloc::AllocError;
use std::collections::VecDeque;

/// The bytes that a move hands over; none where nothing comes through.
pub fn handed<'a>(line: &'a VecDeque<Burst>, way: &'a Move) -> &'a [u8]
    ensures { result.now ≡ handed way.now (bytes_of line.now.items) }
{
    let Some(burst) = line.front() else {
        return &[];
    };
    match way {
        Move::Deliver | Move::Repeat => burst.as_slice(),
        Move::Drop => &[],
        Move::Damage(bytes) => bytes.as_slice(),
    }
}

/// A run of bytes comes to the bus, which then sees the line silent.
pub fn hand_in(bus: &mut Bus, run: &[u8], now: u64)
    ensures { bus.new ≡ hears_run run.now now bus.old }
{
    if run.is_empty() {
        return;
    }
    bus.on_bytes(run, now);
    bus.on_silence(now);
}

/// All readers hear a packet, in their order, and what each of them answers goes out. What the last of them answers stands in `out`.
pub fn hear_all<H: Handler>(
    sites: &mut [ReaderSite<H>],
    packet: &FrameView<'_>,
    out: &mut Burst,
    line: &mut VecDeque<Burst>,
)
    requires place { deque_len line.old + length sites.old ≤ deque_capacity line.old }
    requires places { All HasPlace sites.old }
    ensures sites { sites_of sites.new ≡ map (site_hears H.answer_of H.after packet.now) (sites_of sites.old) }
    ensures line { bytes_of line.new.items ≡ bytes_of line.old.items ++ flat_map (site_says H.answer_of H.after packet.now) (sites_of sites.old) }
    ensures fits { All (λ site. SaysFit H.answer_of H.after (packet.now ∷ []) site.reader) (sites_of sites.old) }
{
    for site in sites.iter_mut() {
        site.hear(packet, out, line);
    }
}

/// A report goes to the account of its entry's reader, if there is one.
pub fn tell<H: Handler>(sites: &mut [ReaderSite<H>], entry: EntryNumber, report: &Report<'_>)
    requires { All HasPlace sites.old }
    ensures { sites_of sites.new ≡ changed_site entry (site_is_told report.now) (sites_of sites.old) }
{
    if entry < sites.len() {
        sites[entry].account.tell(report);
    }
}

/// Makes a place in each list of each account.
pub fn grow_all<H: Handler>(sites: &mut [ReaderSite<H>]) -> Result<(), AllocError>
    ensures same { sites_of sites.new ≡ sites_of sites.old }
    ensures places { OnOk result (All HasPlace sites.new) }
{
    for site in sites.iter_mut() {
        site.account.grow()?;
    }
    Ok(())
}
