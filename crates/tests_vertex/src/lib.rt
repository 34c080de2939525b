//! The tests of plans and of instances of vertices: what they accept and give, their snapshots, and that they go on from one as if
//! they had never stopped. They stand apart from what they test, so that no library is proved twice.
#![tactic(auto)]

#[cfg(test)]
mod going_on;
#[cfg(test)]
mod images;
#[cfg(test)]
mod jobs;
#[cfg(test)]
mod leaving;
#[cfg(test)]
mod limits;
#[cfg(test)]
mod listed;
#[cfg(test)]
mod plans;
#[cfg(test)]
mod run;
#[cfg(test)]
mod snapshots;
#[cfg(test)]
mod streams;
