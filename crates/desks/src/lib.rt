// Desks: a desk is a set of regions, bits as in a tariff, and refusal 17 is what it meets outside them.
// Promise: each function equals its definition in specs/Desks.antt, for every number in place of a desk. What the layer above may use: the
// three checks of 17. A desk with all fourteen regions, `tariff::ALL_FOURTEEN`, is refused nothing.
#![tactic(auto)]

ghost use Rattle.std.specs.Prelude.{◌≡◌, not, ◌||◌, ◌<◌};
ghost use Rattle.laws.specs.Notions.{bit};
ghost use Rattle.refusal.specs.declared.Check.TheVariants.{Pass};
ghost use Rattle.refusal.specs.Checks.{unless};
ghost use Rattle.desks.specs.Desks.{is_full, is_desk, in_desk, covers, may_use, may_query};

use refusal::Check;
use tariff::ALL_FOURTEEN;

// Whether the desk has all fourteen.
fn is_full(desk: u32) -> bool
    ensures { result ≡ is_full desk }
{
    desk == ALL_FOURTEEN
}

// 17, unless the test holds.
fn refuse_unless(holds: bool) -> Check
    ensures { result ≡ unless holds 17 Pass }
{
    if holds {
        Check::Pass
    } else {
        Check::Refuse(17)
    }
}

// 17, of what only a desk with all fourteen may do.
pub fn full_check(desk: u32) -> Check
    ensures { result ≡ unless (is_full desk) 17 Pass }
{
    refuse_unless(is_full(desk))
}

// Whether the set is one of regions, and not empty.
fn is_desk(desk: u32) -> bool
    ensures { result ≡ is_desk desk }
{
    (1..=ALL_FOURTEEN).contains(&desk)
}

// Whether a region is the desk's.
#[tactic(auto, using(std::proofs::lemmas::Bool::Decides::nat_tests), unfolding(crate::specs::Desks::in_desk))]
fn in_desk(desk: u32, region: u32) -> bool
    ensures { result ≡ in_desk desk region }
{
    region < 14 && is_desk(desk) && tariff::has(desk, region)
}

// Whether a region is among a desk's, or not among a tariff's.
fn lets(desk: u32, regions: u32, region: u32) -> bool
    requires { region < 14 }
    ensures { result ≡ (bit desk region || not (bit regions region)) }
{
    tariff::has(desk, region) || !tariff::has(regions, region)
}

// Whether every region of a tariff is the desk's.
#[tactic(auto, unfolding(crate::specs::Desks::covers))]
fn covers(desk: u32, regions: u32) -> bool
    ensures { result ≡ covers desk regions }
{
    is_desk(desk) && (0..14).all(|region| lets(desk, regions, region))
}

// Whether the desk may use a tariff offered in these regions.
pub fn may_use(desk: u32, regions: u32) -> bool
    ensures { result ≡ may_use desk regions }
{
    is_full(desk) || covers(desk, regions)
}

// 17, of a tariff that is not offered in the desk's regions alone.
pub fn use_check(desk: u32, regions: u32) -> Check
    ensures { result ≡ unless (may_use desk regions) 17 Pass }
{
    refuse_unless(may_use(desk, regions))
}

// 17, of a region that is not the desk's.
pub fn query_check(desk: u32, region: u32) -> Check
    ensures { result ≡ unless (may_query desk region) 17 Pass }
{
    refuse_unless(is_full(desk) || in_desk(desk, region))
}
