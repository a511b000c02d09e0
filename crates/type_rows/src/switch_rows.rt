//! Switches (JVMS 6.5, `tableswitch` and `lookupswitch`).
#![tactic(auto, unfolding(type_rules::specs::Rows::row))]

ghost use Rattle.std.specs.Prelude.{◌≡◌, ◌<◌, ℤ, true, false, length, drop, map};
ghost use Rattle.program_rules.specs.Instructions.{TableSwitch, LookupSwitch};
ghost use Rattle.vframes.specs.Named.{AreNamed};
ghost use Rattle.type_rows.specs.Sites.{RowAt, LeadsNext, LeadToAll, LeadNotToAll};

use crate::answer::Answer;
use crate::jump_rows::leads;
use crate::site::Site;
use vframes::Frame;

// Whether the target at a place states a frame that takes this one.
fn leads_at(site: &Site, f: &Frame, targets: &[u32], at: usize) -> bool
    requires named { AreNamed site.now.program.now site.now.names.now }
    requires within { at < length targets.now }
    ensures yes { result ≡ true → LeadsNext site.now f.now targets.now at }
    ensures no { result ≡ false → LeadNotToAll site.now f.now (drop at targets.now) }
{
    leads(site, f, targets[at])
}

// Whether all these targets do.
fn lead(site: &Site, f: &Frame, targets: &[u32]) -> bool
    requires { AreNamed site.now.program.now site.now.names.now }
    ensures yes { result ≡ true → LeadToAll site.now f.now targets.now }
    ensures no { result ≡ false → LeadNotToAll site.now f.now targets.now }
{
    for at in 0..targets.len() {
        if !leads_at(site, f, targets, at) {
            return false;
        }
    }
    true
}

pub fn table_switch(site: &Site, f: &mut Frame, default: u32, targets: &[u32]) -> Answer
    requires { AreNamed site.now.program.now site.now.names.now }
    ensures { (low : ℤ) → RowAt (TableSwitch default low targets.now) site.now f.old result f.new }
{
    if !f.stack.take_int() {
        return Answer::Fails(7);
    }
    if !leads(site, f, default) {
        return Answer::Fails(9);
    }
    if !lead(site, f, targets) {
        return Answer::Fails(9);
    }
    Answer::Stops
}

// Whether the target of the key at a place states a frame that takes this one.
fn key_leads_at(site: &Site, f: &Frame, keys: &[(i32, u32)], at: usize) -> bool
    requires named { AreNamed site.now.program.now site.now.names.now }
    requires within { at < length keys.now }
    ensures yes { result ≡ true → LeadsNext site.now f.now (map (λ k. k.1) keys.now) at }
    ensures no { result ≡ false → LeadNotToAll site.now f.now (drop at (map (λ k. k.1) keys.now)) }
{
    let (_, to) = keys[at];
    leads(site, f, to)
}

// Whether the targets of all these keys do.
fn keys_lead(site: &Site, f: &Frame, keys: &[(i32, u32)]) -> bool
    requires { AreNamed site.now.program.now site.now.names.now }
    ensures yes { result ≡ true → LeadToAll site.now f.now (map (λ k. k.1) keys.now) }
    ensures no { result ≡ false → LeadNotToAll site.now f.now (map (λ k. k.1) keys.now) }
{
    for at in 0..keys.len() {
        if !key_leads_at(site, f, keys, at) {
            return false;
        }
    }
    true
}

pub fn lookup_switch(site: &Site, f: &mut Frame, default: u32, keys: &[(i32, u32)]) -> Answer
    requires { AreNamed site.now.program.now site.now.names.now }
    ensures { RowAt (LookupSwitch default keys.now) site.now f.old result f.new }
{
    if !f.stack.take_int() {
        return Answer::Fails(7);
    }
    if !leads(site, f, default) {
        return Answer::Fails(9);
    }
    if !keys_lead(site, f, keys) {
        return Answer::Fails(9);
    }
    Answer::Stops
}
