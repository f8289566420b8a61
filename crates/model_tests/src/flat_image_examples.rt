//! The definitions, computed on small histories.
ghost use Rattle.flat_image.specs.Examples.{WritesAndCommit, FlushAndCrash, LanesOverLayer, FullTop, FaultsAndOrder, GrowOverLayer, ImageOverLayer, SizesAndOrder};

fn writes_and_commit()
    ensures { WritesAndCommit }
{}

fn flush_and_crash()
    ensures { FlushAndCrash }
{}

fn lanes_and_commit()
    ensures { LanesOverLayer }
{}

fn full_top()
    ensures { FullTop }
{}

fn faults_and_order()
    ensures { FaultsAndOrder }
{}

fn grow_and_commit()
    ensures { GrowOverLayer }
{}

fn taller_image()
    ensures { ImageOverLayer }
{}

fn sizes_and_order()
    ensures { SizesAndOrder }
{}

#[test]
fn definitions_compute() {
    writes_and_commit();
    flush_and_crash();
    lanes_and_commit();
    full_top();
    faults_and_order();
    grow_and_commit();
    taller_image();
    sizes_and_order();
}
