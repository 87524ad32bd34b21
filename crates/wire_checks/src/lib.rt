// Examples of headers and elements on the wire.
#![tactic(auto)]

#[cfg(test)]
mod elements;
#[cfg(test)]
mod headers;
