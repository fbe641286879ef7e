// What is proved of every search, each theorem as the contract of a function that does nothing.
ghost use Rattle.worksheet.specs.Series.{SearchFindsAllOffers, FirstOfferIsCheapest};

// Resumed after each of its offers, an accepted search finds them all, in the order of cost and then of delay.
pub fn search_finds_all_offers() -> u8
    ensures { SearchFindsAllOffers }
{
    0
}

// The first offer of an accepted search is the cheapest route; ended, the search is exhausted exactly if there is no route.
#[tactic(auto, using(crate::proofs::Offers::first_offer_is_cheapest))]
pub fn first_offer_is_cheapest() -> u8
    ensures { FirstOfferIsCheapest }
{
    0
}
