#![tactic(auto)]

// Tests of days counted through windows: messages byte by byte, worked days over every post, wrong readings of the rules, refusals, sizes, and orders of lots; and of reports.
#[cfg(test)]
mod figures;
#[cfg(test)]
mod messages;
#[cfg(test)]
mod orders;
#[cfg(test)]
mod recording;
#[cfg(test)]
mod refused_lots;
#[cfg(test)]
mod reports;
#[cfg(test)]
mod sizes;
#[cfg(test)]
mod worked_days;
