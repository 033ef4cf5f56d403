//! The made case of a number.

ghost use Rattle.std.specs.Prelude.{◌≡◌, ◌≤◌, ◌++◌, IfOk};
ghost use Rattle.lab_model.specs.Fit.{SetupFits};
ghost use Rattle.player_core.specs.Scene.{IsTask};
ghost use Rattle.demo_case.specs.Case.{demo_film, demo_periods, demo_setup, demo_task, period_drawn, periods_from, sizes_drawn, sizes_from};
ghost use Rattle.demo_case.specs.Draws.{draw, state_after};

use crate::draws::Draws;
use lab_model::{Manifest, NoMemory, Period, Setup, Trace, Weights};
use std::alloc::{AllocError, Global};

/// A film, a network, and what a session over them is played with.
#[derive(Drop)]
pub struct DemoCase {
    /// The film: 40 segments of 2000 ms on 4 rungs.
    pub manifest: Manifest,
    /// The network: 20 periods of 5000 ms.
    pub trace: Trace,
    /// The setup: a buffer of 4000 ms, utilities 0 to 3, a switch weighs 0, a stall 100, the startup 1.
    pub setup: Setup,
}

/// The duration of a segment in ms.
const SEGMENT_MS: u32 = 2000;

/// A hundredth of it.
const HUNDREDTH_MS: u32 = 20;

/// The bitrates in kbps.
const BITRATES: [u32; 4] = [500, 1000, 2000, 4000];

/// The number of segments.
const SEGMENTS: u32 = 40;

/// The number of periods.
const PERIODS: u32 = 20;

/// The duration of a period in ms.
const PERIOD_MS: u32 = 5000;

/// The buffer in ms: two segments.
const BUFFER_MS: u32 = 4000;

/// The utilities by rung.
const UTILITIES: [u32; 4] = [0, 1, 2, 3];

/// What a change of utility weighs.
const SWITCH: u32 = 0;

/// What a millisecond of stall weighs.
const STALL: u32 = 100;

/// What a millisecond of startup weighs.
const STARTUP: u32 = 1;

/// Adds the sizes of a segment in bits, rung by rung, by its drawn number: 75 to 125 hundredths of what the bitrate
/// gives in the segment's duration.
fn add_sizes(sizes: &mut Vec<u32>, drawn: u32) -> Result<(), AllocError>
    ensures { IfOk result (λ _. sizes.new.items ≡ sizes.old.items ++ sizes_drawn drawn) }
{
    for bitrate in &BITRATES {
        sizes.push(*bitrate * HUNDREDTH_MS * (75 + drawn % 51))?;
    }
    Ok(())
}

/// The sizes in bits of the film, segment by segment, with one draw a segment.
#[tactic(auto, using(crate::proofs::Drawn::draws))]
fn draw_sizes(alloc: Global, draws: &mut Draws) -> Result<Vec<u32>, AllocError>
    ensures sizes { IfOk result (λ v. v.items ≡ sizes_from draws.old 40) }
    ensures state { IfOk result (λ _. draws.new ≡ state_after draws.old 40) }
{
    let mut sizes = Vec::new(alloc);
    for _ in 0..SEGMENTS {
        add_sizes(&mut sizes, draws.next())?;
    }
    Ok(sizes)
}

/// The period of the next two drawn numbers: first the bandwidth, then the latency.
#[tactic(auto, unfolding(crate::specs::Draws::state_after))]
fn draw_period(draws: &mut Draws) -> Period
    ensures period { result ≡ period_drawn (draw draws.old 0) (draw draws.old 1) }
    ensures state { draws.new ≡ state_after draws.old 2 }
{
    let kbps = 500 + 100 * (draws.next() % 36);
    let latency = 20 + draws.next() % 81;
    Period {
        duration_ms: PERIOD_MS,
        bandwidth: 1000 * kbps as u64,
        latency,
    }
}

/// The periods of the network, with two draws a period.
#[tactic(auto, using(crate::proofs::Drawn::draws))]
fn draw_periods(alloc: Global, draws: &mut Draws) -> Result<Vec<Period>, AllocError>
    ensures { IfOk result (λ v. v.items ≡ periods_from draws.old 20) }
{
    let mut periods = Vec::new(alloc);
    for _ in 0..PERIODS {
        periods.push(draw_period(draws))?;
    }
    Ok(periods)
}

/// The setup of each made case.
#[tactic(auto, using(crate::proofs::Within::demo_is_weighing))]
fn demo_setup(alloc: Global) -> Result<Setup, AllocError>
    ensures { IfOk result (λ s. s ≡ demo_setup) }
{
    let utilities = UTILITIES.to_vec(alloc)?;
    Ok(Setup {
        buffer_ms: BUFFER_MS,
        weights: Weights::from_parts(utilities, SWITCH, STALL, STARTUP).unwrap(),
        abandon: false,
    })
}

/// The film of the next drawn numbers, one a segment.
#[tactic(auto, using(crate::proofs::Within::demo_is_film))]
fn draw_film(alloc: Global, draws: &mut Draws) -> Result<Manifest, AllocError>
    ensures film { IfOk result (λ m. m ≡ demo_film draws.old) }
    ensures state { IfOk result (λ _. draws.new ≡ state_after draws.old 40) }
{
    let bitrates = BITRATES.to_vec(alloc)?;
    let sizes = draw_sizes(alloc, draws)?;
    Ok(Manifest::from_parts(SEGMENT_MS, bitrates, sizes).unwrap())
}

/// The network of the next drawn numbers, two a period.
#[tactic(auto, using(crate::proofs::Within::periods_are_trace))]
fn draw_trace(alloc: Global, draws: &mut Draws) -> Result<Trace, AllocError>
    ensures { IfOk result (λ t. t ≡ periods_from draws.old 20) }
{
    let periods = draw_periods(alloc, draws)?;
    Ok(Trace::from_parts(periods).unwrap())
}

/// The parts of the made case: first the film is drawn, then the network.
#[tactic(auto, using(crate::proofs::Within::parts_fit))]
fn draw_case(alloc: Global, n: u32) -> Result<DemoCase, AllocError>
    requires { n ≤ 2147483647 }
    ensures manifest { IfOk result (λ c. c.manifest ≡ demo_film n) }
    ensures trace { IfOk result (λ c. c.trace ≡ demo_periods n) }
    ensures setup { IfOk result (λ c. c.setup ≡ demo_setup) }
    ensures fits { IfOk result (λ c. SetupFits c.setup c.manifest) }
{
    let mut draws = Draws::new(n);
    let manifest = draw_film(alloc, &mut draws)?;
    let trace = draw_trace(alloc, &mut draws)?;
    Ok(DemoCase {
        manifest,
        trace,
        setup: demo_setup(alloc)?,
    })
}

/// The made case of a number, 0 to 2147483647. Its setup fits its film, and the planner can plan it.
pub fn demo_case(alloc: Global, n: u32) -> Result<DemoCase, NoMemory>
    requires { n ≤ 2147483647 }
    ensures manifest { IfOk result (λ c. c.manifest ≡ demo_film n) }
    ensures trace { IfOk result (λ c. c.trace ≡ demo_periods n) }
    ensures setup { IfOk result (λ c. c.setup ≡ demo_setup) }
    ensures fits { IfOk result (λ c. SetupFits c.setup c.manifest) }
    ensures task { IsTask (demo_task n) }
{
    draw_case(alloc, n).map_err(|_| NoMemory)
}
