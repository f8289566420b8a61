//! The definitions, computed on connections that were worked out by hand.
ghost use Rattle.nbd_session.specs.Completeness.{IsOrderly};
ghost use Rattle.nbd_session.specs.Examples.{img, one_read_in, OneRead, FirstChecks, EndsSoon};
ghost use Rattle.nbd_session.specs.RefusedExamples.{Refusals};

fn one_read()
    ensures { OneRead }
{}

fn first_checks()
    ensures { FirstChecks }
{}

fn ends_soon()
    ensures { EndsSoon }
{}

fn refusals()
    ensures { Refusals }
{}

fn one_read_is_orderly()
    ensures { IsOrderly img 4 one_read_in }
{}

#[test]
fn definitions_compute() {
    one_read();
    first_checks();
    ends_soon();
    refusals();
    one_read_is_orderly();
}
