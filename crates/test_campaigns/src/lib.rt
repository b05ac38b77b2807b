//! Worked examples of campaigns, of shares and of several workers. This crate is tests alone.
#![tactic(auto)]

#[cfg(test)]
mod campaigns;
#[cfg(test)]
mod giving;
#[cfg(test)]
mod keeper_faults;
#[cfg(test)]
mod settings;
#[cfg(test)]
mod shares;
#[cfg(test)]
mod workers;
