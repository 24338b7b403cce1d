// The demands, each cited by a contract, so that the gate fails where its theorem is gone. Beside each stands the same promise written out with none of its
// words (T-06's with those of a report, by bytes and numbers) and proved from it, so that the gate fails where the theorem says less. Demand 2 is what
// crates/cabinet promises of the code.
#![tactic(auto)]

ghost use Rattle.rules.specs.Demand1.{Demand1};
ghost use Rattle.rules.specs.Demand3.{Demand3};
ghost use Rattle.rules.specs.Report.{RequestT01};
ghost use Rattle.rules.specs.Made.{RequestT02};
ghost use Rattle.rules.specs.Fault.{RequestT03};
ghost use Rattle.rules.specs.Adopt.{Adopting};
ghost use Rattle.rules.specs.Health.{RequestT04};
ghost use Rattle.rules.specs.Reserved.{RequestT05};
ghost use Rattle.rules.specs.Compare.{RequestT06};
ghost use Rattle.rules.specs.TripsKept.{RequestT08};
ghost use Rattle.rules.specs.Apart.{RequestT09};
ghost use Rattle.rules_demands.specs.Calls.{Demand1WrittenOut};
ghost use Rattle.rules_demands.specs.Histories.{Demand3WrittenOut};
ghost use Rattle.rules_demands.specs.Beside.{BesideWrittenOut};
ghost use Rattle.rules_demands.specs.Examples.{CasesHeld, TextsHeld};
ghost use Rattle.rules_demands.specs.Reports.{ReportsWrittenOut, ReportsHeld};
ghost use Rattle.rules_demands.specs.Images.{ImagesWrittenOut, ImagesHeld};
ghost use Rattle.rules_demands.specs.Faults.{FaultsWrittenOut, AdoptingWrittenOut, FaultsHeld};
ghost use Rattle.rules_demands.specs.Health.{HealthWrittenOut, HealthHeld};
ghost use Rattle.rules_demands.specs.Reserved.{ReservedMeansZero, ReservedHeld};
ghost use Rattle.rules_demands.specs.Comparisons.{ComparisonsWrittenOut, ComparisonsHeld};
ghost use Rattle.rules_demands.specs.Trips.{TripsWrittenOut, TripsHeld};
ghost use Rattle.rules_demands.specs.Modules.{ModulesWrittenOut, StartsNeeded, ModulesHeld};

// Any call gets an answer, and a refusal leaves what it must.
pub fn demand_1()
    ensures demand1 { Demand1 }
    ensures demand1written_out { Demand1WrittenOut }
{}

// Two senders, one transfer.
pub fn demand_3()
    ensures demand3 { Demand3 }
    ensures demand3written_out { Demand3WrittenOut }
{}

// What the page says of one event, beside the demands: the area stays, the last reading is kept, a frozen module answers 10,
// a staged version is taken over.
pub fn beside_the_demands()
    ensures { BesideWrittenOut }
{}

// The page's cases and texts, with every row that they must have.
pub fn page_examples()
    ensures cases_held { CasesHeld }
    ensures texts_held { TextsHeld }
{}

// Document 02, T-01: the report's sums, its order, and the reports of two lists; the same written out; and examples.
pub fn request_t01()
    ensures request_t01 { RequestT01 }
    ensures reports_written_out { ReportsWrittenOut }
    ensures reports_held { ReportsHeld }
{}

// Document 02, T-02: what is made is a good image and carries its payload; what a good image carries makes it again; the same written out; and examples.
pub fn request_t02()
    ensures request_t02 { RequestT02 }
    ensures images_written_out { ImagesWrittenOut }
    ensures images_held { ImagesHeld }
{}

// Document 02, T-03: the fault that is named is the first, and there is none exactly where the image is good; and a record kept before is possible once taken over;
// both written out; and examples.
pub fn request_t03()
    ensures request_t03 { RequestT03 }
    ensures adopting { Adopting }
    ensures faults_written_out { FaultsWrittenOut }
    ensures adopting_written_out { AdoptingWrittenOut }
    ensures faults_held { FaultsHeld }
{}

// Document 02, T-04: words are compared in the order of the integers that they measure; the same written out; and examples.
pub fn request_t04()
    ensures request_t04 { RequestT04 }
    ensures health_written_out { HealthWrittenOut }
    ensures health_held { HealthHeld }
{}

// Document 02, T-05: what a reserved bit is answered, and that the mask of Set Threshold has nothing left to clear; the same written out; and examples.
pub fn request_t05()
    ensures request_t05 { RequestT05 }
    ensures reserved_means_zero { ReservedMeansZero }
    ensures reserved_held { ReservedHeld }
{}

// Document 02, T-06: what a report of two logs says of them, what the rest is, and when the list is full; the same written out; and examples.
pub fn request_t06()
    ensures request_t06 { RequestT06 }
    ensures comparisons_written_out { ComparisonsWrittenOut }
    ensures comparisons_held { ComparisonsHeld }
{}

// Document 02, T-08: what a possible record's trips byte is, that every event keeps it true, and that function 1 answers as before; the same written out; and examples.
pub fn request_t08()
    ensures request_t08 { RequestT08 }
    ensures trips_written_out { TripsWrittenOut }
    ensures trips_held { TripsHeld }
{}

// Document 02, T-09: what an event leaves of the other module, and that one module does not see the other but in its own Starts' answers; the same written out; that
// the condition on Starts is needed; and examples.
pub fn request_t09()
    ensures request_t09 { RequestT09 }
    ensures modules_written_out { ModulesWrittenOut }
    ensures starts_needed { StartsNeeded }
    ensures modules_held { ModulesHeld }
{}
