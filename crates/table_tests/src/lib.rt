// Examples of tables, their refusals and their surveys, and a walk over another trait. Each is proved
// to be safe, and then run.
#![tactic(auto)]

#[cfg(test)]
mod checks;
#[cfg(test)]
mod large;
#[cfg(test)]
mod relays;
#[cfg(test)]
mod rows;
#[cfg(test)]
mod surveys;
#[cfg(test)]
mod texts;
#[cfg(test)]
mod views;
