//! What is served.
use disks::Disk;
use journal_book::Book;
use outside::Clock;
use service_desk::ServiceMachine;

/// A book of the service, the clock at whose moments it is asked, and the doors at which its
/// callers come in.
#[derive(Drop)]
pub struct Office<A, D: Disk, C: Clock> {
    pub doors: Vec<A>,
    pub book: Book<ServiceMachine, D>,
    pub clock: C,
}
