// Executed cases that no log of the bench can show: modules with other setups, frames that no house lets through, and
// logs as text. All of it is tests; nothing here is for use elsewhere.
#![tactic(auto)]

#[cfg(test)]
mod button_cases;
#[cfg(test)]
mod fixture;
#[cfg(test)]
mod input_cases;
#[cfg(test)]
mod panel_cases;
#[cfg(test)]
mod relay_cases;
#[cfg(test)]
mod text_cases;
#[cfg(test)]
mod timer_cases;
