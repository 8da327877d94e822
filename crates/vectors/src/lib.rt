#![tactic(auto)]

// Tests of what the layers below write against values that were worked out elsewhere or in another way.
#[cfg(test)]
mod checks;
#[cfg(test)]
mod copies;
#[cfg(test)]
mod lines;
#[cfg(test)]
mod readings;
#[cfg(test)]
mod rows;
#[cfg(test)]
mod second;
#[cfg(test)]
mod second_reader;
