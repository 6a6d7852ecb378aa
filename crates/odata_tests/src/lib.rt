//! Tests of filters, orders and lists of topics, by tables that an independent program worked out.
#![tactic(auto)]

#[cfg(test)]
mod joined_rows;
#[cfg(test)]
mod listing_rows;
#[cfg(test)]
mod long_rows;
#[cfg(test)]
mod number_rows;
#[cfg(test)]
mod order_rows;
#[cfg(test)]
mod refused_joined_rows;
#[cfg(test)]
mod refused_number_rows;
#[cfg(test)]
mod refused_rows;
#[cfg(test)]
mod sample_rows;
#[cfg(test)]
mod sample_topics;
#[cfg(test)]
mod table_rows;
#[cfg(test)]
mod table_tests;
#[cfg(test)]
mod text_rows;
