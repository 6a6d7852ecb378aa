//! What callers may rely on beyond one call.
ghost use Rattle.std.specs.Prelude.{◌≡◌, List};
ghost use Rattle.bim_model.specs.declared.upload.UploadFault.{UploadFault};
ghost use Rattle.p21_values.specs.declared.value.Instance.{Instance};
ghost use Rattle.ifc_schema.specs.declared.outcome.Survey.{Survey};
ghost use Rattle.ifc_schema.specs.Surveys.{SurveyFault, Surveyed};

/// Instances have one fault of a survey at most, and none where there is a survey.
pub fn one_survey_fault()
    ensures fault { (world : List Instance) (f g : UploadFault) → SurveyFault world f → SurveyFault world g
        → f ≡ g }
    ensures apart { (world : List Instance) (survey : Survey) (f : UploadFault) → Surveyed world survey
        → SurveyFault world f → ⊥ }
{}
