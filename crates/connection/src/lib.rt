//! Serves one connection: what it brings is handed to a service, request by request, and the
//! answers are written.
//!
//! [`serve`] runs a connection to its end over any reader, writer and [`Service`]. [`Counted`]
//! wraps a reader or a writer, and says afterwards how often it failed.
#![tactic(auto)]

mod counted;
mod end;
mod laws;
mod replies;
mod request_text;
mod service;
mod serving;

pub use counted::Counted;
pub use end::End;
pub use laws::exchanges_serve_the_first_items;
pub use service::Service;
pub use serving::serve;
